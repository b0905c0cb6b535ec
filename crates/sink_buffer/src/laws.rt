ghost use Rattle.sink_buffer.specs.Buffers.{NothingIsLost, PutIsInFullBuffers};

/// What it is for bytes to have passed a buffer: what a sink that tells has gained, and then what is held, are the
/// bytes that came; and it has gained full buffers alone.
pub fn buffer_laws()
    ensures kept { NothingIsLost }
    ensures full { PutIsInFullBuffers }
{}
