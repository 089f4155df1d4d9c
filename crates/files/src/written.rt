//! Nodes that are written are read back.
ghost use Rattle.files.specs.Written.{ReadBack};

/// What `read_procedure` promises of the text that writes nodes, a line each: it reads those nodes.
pub fn written_nodes_are_read_back()
    ensures read_back { ReadBack }
{}
