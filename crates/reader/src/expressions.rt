// Reading an expression: an operand, and a loop that grows it.
ghost use Rattle.std.specs.Prelude.{◌≡◌, ◌+◌, ◌*◌, ◌<◌, ◌≤◌, true, length, drop, Some, OnOk, nat_le};
ghost use Rattle.arena.specs.Order.{before};
ghost use Rattle.arena.specs.Tables.{arena_nodes};
ghost use Rattle.arena.specs.Trees.{binary_of, phrase};
ghost use Rattle.grammar.specs.Tree as tree;
ghost use Rattle.grammar.specs.Limits.{limited};
ghost use Rattle.grammar.specs.Reader.{closer, first, want};
ghost use Rattle.reader.specs.Feeds.{NextTold, coming, feed_source};
ghost use Rattle.reader.specs.Forms.{is_callable, tight_of};
ghost use Rattle.reader.specs.Growing.{Grown, sign};
ghost use Rattle.reader.specs.Kinds.{mark_of};
ghost use Rattle.reader.specs.Lists.{Closed, ToldList, Within, between, closed_list, in_list};
ghost use Rattle.reader.specs.Told.{Deep, Ends, Loose, Made, Spot, Told, having};
ghost use Rattle.reader.specs.Parsers.{Between};

use crate::depths::Depth;
use crate::forms::{Form, Rank, Read};
use crate::growths::Growth;
use crate::kinds::{Kind, Mark, Next};
use crate::making::{growth_of, made};
use crate::parsers::Parser;
use crate::refusals::Stop;
use crate::taking::{stop_at, store};
use arena::nodes::{BinaryOperator, Literal, Node, PrefixOperator, Quotation, Stretch};

// Some of these take the same steps to another node (an expression or a list between two brackets). The states that their
// contracts name differ, and a function for two would take those as ghost members of a trait.
impl Parser<'_, '_> {
    // Takes the token here, which is an expression by itself.
    fn leaf(&mut self, place: usize, form: Form, node: Node) -> Read
        requires some { 0 < length (coming self.old.feed) }
        requires placed { before (length (arena_nodes self.old.arena)) node ≡ true }
        ensures coming { coming self.new.feed ≡ drop 1 (coming self.old.feed) }
        ensures source { feed_source self.new.feed ≡ feed_source self.old.feed }
        ensures made { Made self.old.arena self.new.arena place form node result }
    {
        self.feed.advance();
        made(&mut self.arena, place, form, node)
    }

    // An expression that is at least as tight as `asks`, where `depth` levels are open. The two stay apart: most phrases have a
    // depth alone, and an operand asks anew at the same depth.
    #[cycle(begun_binary_call_display_expression_group_grown_index_item_items_listed_operand_prefix)]
    pub(crate) fn expression(&mut self, asks: usize, depth: Depth) -> Result<Read, Stop>
        ensures told { Between (Told (Spot asks depth.levels) want) self.old self.new result }
        ensures ends { Ends (feed_source self.old.feed) (arena_nodes self.new.arena) asks depth.levels (coming self.new.feed) result }
    {
        let mut read = self.operand(asks, depth)?;
        while let Some(next) = self.feed.next() {
            let Some(growth) = growth_of(next.kind, read.form, asks) else {
                return Ok(read);
            };
            read = self.grown(next, growth, read, asks, depth)?;
        }
        Ok(read)
    }

    // The first operand of an expression.
    #[cycle(begun_binary_call_display_expression_group_grown_index_item_items_listed_operand_prefix)]
    fn operand(&mut self, asks: usize, depth: Depth) -> Result<Read, Stop>
        ensures { Between (Told (Spot asks depth.levels) want) self.old self.new result }
    {
        let next = self.feed.next().ok_or(Stop::Unfinished)?;
        self.begun(next, asks, depth)
    }

    // The operand that begins with the token here.
    #[cycle(begun_binary_call_display_expression_group_grown_index_item_items_listed_operand_prefix)]
    fn begun(&mut self, next: Next, asks: usize, depth: Depth) -> Result<Read, Stop>
        requires facing { NextTold (feed_source self.old.feed) (coming self.old.feed) (Some next) }
        ensures { Between (Told (Spot asks depth.levels) want) self.old self.new result }
    {
        let place = next.place;
        match next.kind {
            Kind::Name(len) => {
                let name = Stretch { at: place, len };
                Ok(self.leaf(place, Form::Named, Node::Variable { name }))
            }
            Kind::Text(len) => {
                let literal = Literal::Text(Quotation { at: place, len });
                Ok(self.leaf(place, Form::Closed, Node::Constant { place, literal }))
            }
            Kind::Constant(constant) => {
                let literal = constant.into();
                Ok(self.leaf(place, Form::Closed, Node::Constant { place, literal }))
            }
            Kind::Not => self.prefix(next, PrefixOperator::Not, asks, depth),
            Kind::Operator(BinaryOperator::Minus) => self.prefix(
                next,
                PrefixOperator::Negate,
                asks,
                depth,
            ),
            Kind::LeftRound => self.group(next, depth),
            Kind::LeftSquare => self.display(next, depth),
            Kind::Operator(_) | Kind::Dot | Kind::Mark(_) | Kind::Fault(_) => Err(stop_at(next)),
        }
    }

    // What stands in parentheses, the first of which is here.
    #[cycle(begun_binary_call_display_expression_group_grown_index_item_items_listed_operand_prefix)]
    fn group(&mut self, next: Next, depth: Depth) -> Result<Read, Stop>
        requires facing { NextTold (feed_source self.old.feed) (coming self.old.feed) (Some next) }
        requires kind { next.kind ≡ Kind.LeftRound }
        ensures { Between (Told (Deep depth.levels) want) self.old self.new result }
    {
        let inner = depth.deeper(next)?;
        self.feed.advance();
        let read = self.expression(0, inner)?;
        self.feed.take_mark(Mark::RightRound)?;
        Ok(Read {
            place: next.place,
            form: Form::Closed,
            node: read.node,
        })
    }

    // An operator before its operand, which is here.
    #[cycle(begun_binary_call_display_expression_group_grown_index_item_items_listed_operand_prefix)]
    fn prefix(
        &mut self,
        next: Next,
        operator: PrefixOperator,
        asks: usize,
        depth: Depth,
    ) -> Result<Read, Stop>
        requires facing { NextTold (feed_source self.old.feed) (coming self.old.feed) (Some next) }
        requires kind { next.kind ≡ sign operator }
        ensures { Between (Told (Spot asks depth.levels) want) self.old self.new result }
    {
        let form = Form::Prefix(operator);
        let reach = form.tight();
        if asks > reach {
            return Err(stop_at(next));
        }
        let inner = depth.deeper(next)?;
        self.feed.advance();
        let operand = self.expression(reach, inner)?;
        Ok(made(
            &mut self.arena,
            next.place,
            form,
            Node::Prefix {
                place: next.place,
                operator,
                operand: operand.node,
            },
        ))
    }

    // An expression with what the token here adds to it.
    #[cycle(begun_binary_call_display_expression_group_grown_index_item_items_listed_operand_prefix)]
    fn grown(
        &mut self,
        next: Next,
        growth: Growth,
        read: Read,
        asks: usize,
        depth: Depth,
    ) -> Result<Read, Stop>
        requires stored { read.node < length (arena_nodes self.old.arena) }
        requires facing { NextTold (feed_source self.old.feed) (coming self.old.feed) (Some next) }
        requires grows { Grown next.kind read.form asks growth }
        ensures { Between (Told (Spot asks depth.levels) (having (feed_source self.old.feed) (arena_nodes self.old.arena) read)) self.old self.new result }
    {
        match growth {
            Growth::Member => self.member(next, read),
            Growth::Call => self.call(next, read, depth),
            Growth::Index => self.index(next, read, depth),
            Growth::Operator(operator) => self.binary(next, operator, read, depth),
        }
    }

    // A member of an expression, whose dot is here.
    fn member(&mut self, next: Next, read: Read) -> Result<Read, Stop>
        requires stored { read.node < length (arena_nodes self.old.arena) }
        requires facing { NextTold (feed_source self.old.feed) (coming self.old.feed) (Some next) }
        requires kind { next.kind ≡ Kind.Dot }
        requires tight { nat_le 8 (tight_of read.form) ≡ true }
        ensures { Between (Told (λ h. Unit {0}) (having (feed_source self.old.feed) (arena_nodes self.old.arena) read)) self.old self.new result }
    {
        self.feed.advance();
        let name = self.feed.take_name()?;
        Ok(made(
            &mut self.arena,
            read.place,
            Form::Member,
            Node::Member {
                place: read.place,
                object: read.node,
                name,
            },
        ))
    }

    // An element of an expression, whose bracket is here.
    #[cycle(begun_binary_call_display_expression_group_grown_index_item_items_listed_operand_prefix)]
    fn index(&mut self, next: Next, read: Read, depth: Depth) -> Result<Read, Stop>
        requires stored { read.node < length (arena_nodes self.old.arena) }
        requires facing { NextTold (feed_source self.old.feed) (coming self.old.feed) (Some next) }
        requires kind { next.kind ≡ Kind.LeftSquare }
        requires tight { nat_le 8 (tight_of read.form) ≡ true }
        ensures { Between (Told (Deep depth.levels) (having (feed_source self.old.feed) (arena_nodes self.old.arena) read)) self.old self.new result }
    {
        let inner = depth.deeper(next)?;
        self.feed.advance();
        let index = self.expression(0, inner)?;
        self.feed.take_mark(Mark::RightSquare)?;
        Ok(made(
            &mut self.arena,
            read.place,
            Form::Indexed,
            Node::Index {
                place: read.place,
                object: read.node,
                index: index.node,
            },
        ))
    }

    // Two operands with an operator between them, which is here.
    #[cycle(begun_binary_call_display_expression_group_grown_index_item_items_listed_operand_prefix)]
    fn binary(
        &mut self,
        next: Next,
        operator: BinaryOperator,
        read: Read,
        depth: Depth,
    ) -> Result<Read, Stop>
        requires stored { read.node < length (arena_nodes self.old.arena) }
        requires facing { NextTold (feed_source self.old.feed) (coming self.old.feed) (Some next) }
        requires kind { next.kind ≡ Kind.Operator operator }
        requires tight { nat_le (tree.left (tree.rank (binary_of operator))) (tight_of read.form) ≡ true }
        ensures { Between (Told (Loose (tree.level (tree.rank (binary_of operator))) depth.levels) (having (feed_source self.old.feed) (arena_nodes self.old.arena) read)) self.old self.new result }
    {
        let rank = Rank::from(operator);
        self.feed.advance();
        let right = self.expression(rank.level() + 1, depth)?;
        Ok(made(
            &mut self.arena,
            read.place,
            Form::Binary(rank),
            Node::Binary {
                place: read.place,
                operator,
                left: read.node,
                right: right.node,
            },
        ))
    }

    // A call of an expression, whose parenthesis is here.
    #[cycle(begun_binary_call_display_expression_group_grown_index_item_items_listed_operand_prefix)]
    fn call(&mut self, next: Next, read: Read, depth: Depth) -> Result<Read, Stop>
        requires stored { read.node < length (arena_nodes self.old.arena) }
        requires facing { NextTold (feed_source self.old.feed) (coming self.old.feed) (Some next) }
        requires kind { next.kind ≡ Kind.LeftRound }
        requires callable { is_callable read.form ≡ true }
        ensures { Between (Told (Deep depth.levels) (having (feed_source self.old.feed) (arena_nodes self.old.arena) read)) self.old self.new result }
    {
        let inner = depth.deeper(next)?;
        let arguments = self.listed(Mark::RightRound, inner)?;
        Ok(made(
            &mut self.arena,
            read.place,
            Form::Closed,
            Node::Call {
                place: read.place,
                callee: read.node,
                arguments,
            },
        ))
    }

    // A list, whose bracket is here.
    #[cycle(begun_binary_call_display_expression_group_grown_index_item_items_listed_operand_prefix)]
    fn display(&mut self, next: Next, depth: Depth) -> Result<Read, Stop>
        requires facing { NextTold (feed_source self.old.feed) (coming self.old.feed) (Some next) }
        requires kind { next.kind ≡ Kind.LeftSquare }
        ensures { Between (Told (Deep depth.levels) want) self.old self.new result }
    {
        let inner = depth.deeper(next)?;
        let elements = self.listed(Mark::RightSquare, inner)?;
        Ok(made(
            &mut self.arena,
            next.place,
            Form::Closed,
            Node::Display {
                place: next.place,
                elements,
            },
        ))
    }

    // The expressions between the bracket here, which opens the innermost level, and the one that closes it.
    #[cycle(begun_binary_call_display_expression_group_grown_index_item_items_listed_operand_prefix)]
    fn listed(&mut self, close: Mark, inner: Depth) -> Result<usize, Stop>
        requires some { 0 < length (coming self.old.feed) }
        ensures told { Between (ToldList (Closed close inner.levels) (λ g h. limited 64 (drop 1 (coming self.old.feed)) (first g h)) (closed_list (coming self.new.feed))) self.old self.new result }
        ensures spare { OnOk result (length (arena_nodes self.new.arena) + 2 + 4 * length (coming self.new.feed) ≤ length (arena_nodes self.old.arena) + 4 * length (coming self.old.feed)) }
    {
        self.feed.advance();
        let empty = store(&mut self.arena, Node::NoExpressions);
        if self.feed.passes(close) {
            return Ok(empty);
        }
        self.items(empty, close, inner)
    }

    // One expression or more, and the mark that closes their list. Parameters have a loop like this one, and why it is another
    // stands there.
    #[cycle(begun_binary_call_display_expression_group_grown_index_item_items_listed_operand_prefix)]
    fn items(&mut self, empty: usize, close: Mark, depth: Depth) -> Result<usize, Stop>
        requires stored { empty < length (arena_nodes self.old.arena) }
        ensures { Between (ToldList (λ g h. Within depth.levels g h × (closer g ≡ mark_of close)) (in_list (coming self.old.feed) (phrase (feed_source self.old.feed) (arena_nodes self.old.arena) empty).exprs) (closed_list (coming self.new.feed))) self.old self.new result }
    {
        let mut list = self.item(empty, depth)?;
        while self.feed.passes(Mark::Comma) {
            list = self.item(list, depth)?;
        }
        self.feed.take_mark(close)?;
        Ok(list)
    }

    // One expression more in a list.
    #[cycle(begun_binary_call_display_expression_group_grown_index_item_items_listed_operand_prefix)]
    fn item(&mut self, list: usize, depth: Depth) -> Result<usize, Stop>
        requires stored { list < length (arena_nodes self.old.arena) }
        ensures { Between (ToldList (Within depth.levels) (in_list (coming self.old.feed) (phrase (feed_source self.old.feed) (arena_nodes self.old.arena) list).exprs) (between (coming self.new.feed))) self.old self.new result }
    {
        let last = self.expression(0, depth)?;
        Ok(store(
            &mut self.arena,
            Node::MoreExpressions {
                before: list,
                last: last.node,
            },
        ))
    }
}
