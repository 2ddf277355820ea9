ghost use Rattle.pg_stream.specs.Memory.{GivesItsPieces};
ghost use Rattle.pg_stream.specs.Parameters.{KeepsLastValues};

/// What a link in memory gave, and then what is still to come, are the bytes of its pieces.
pub fn memory_link_gives_its_pieces()
    ensures { GivesItsPieces }
{}

/// What a stream tells of a parameter is the last value that the server told.
pub fn parameters_are_the_last_values()
    ensures { KeepsLastValues }
{}
