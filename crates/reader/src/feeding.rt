// How tokens are taken from a feed.
ghost use Rattle.std.specs.Prelude.{◌≡◌, drop};
ghost use Rattle.lexer.specs.Left.{bytes_of, left};
ghost use Rattle.reader.specs.Feeds.{NextTold, coming, feed_of, feed_source, with_next};

use crate::feeds::Feed;
use crate::kinds::Next;
use lexer::state::Lexer;

// The next token of a lexer, as the grammar takes it.
fn read_next(lexer: &mut Lexer<'_, '_>) -> Option<Next>
    ensures next { with_next (bytes_of lexer.old) result (feed_of (left lexer.new)) ≡ feed_of (left lexer.old) }
    ensures bytes { bytes_of lexer.new ≡ bytes_of lexer.old }
{
    lexer.next().map(Next::from)
}

impl<'a, 's> Feed<'a, 's> {
    // All that a lexer has yet to give.
    pub fn new(mut lexer: Lexer<'a, 's>) -> Feed<'a, 's>
        ensures coming { coming result ≡ feed_of (left lexer.entry) }
        ensures source { feed_source result ≡ bytes_of lexer.entry }
    {
        let next = read_next(&mut lexer);
        Feed { lexer, next }
    }

    // The next token, if there is one.
    pub fn next(&self) -> Option<Next>
        ensures { NextTold (feed_source self.now) (coming self.now) result }
    {
        let next = self.next;
        next
    }

    // Goes past the next token.
    pub fn advance(&mut self)
        ensures coming { coming self.new ≡ drop 1 (coming self.old) }
        ensures source { feed_source self.new ≡ feed_source self.old }
    {
        if self.next.is_some() {
            self.next = read_next(&mut self.lexer);
        }
    }
}
