// What holds of the definitions of trace files and frames: theorems, with no work to do.
ghost use Rattle.tracer_host.specs.Files.{FilesExactly, FramesReadBack};

// The files without a flaw are just those of some radii, and frames read back as the lines that they hold.
pub fn traces_stand()
    ensures files { FilesExactly }
    ensures frames { FramesReadBack }
{}
