// What holds of the definition of a text's lines: theorems, with no work to do.
ghost use Rattle.text_host.specs.Cuts.{CutsExactly};

// Every text is cut into its lines, and in no other way.
pub fn texts_stand()
    ensures { CutsExactly }
{}
