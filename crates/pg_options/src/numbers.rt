ghost use Rattle.std.specs.Prelude.{◌≡◌};
ghost use Rattle.pg_options.specs.Numbers.{port_from, capacity_from};

// The port that a text writes.
pub(crate) fn read_port(text: &str) -> Option<u16>
    ensures { result ≡ port_from text.now }
{
    text.parse::<u16>().ok()
}

// The capacity that a text writes.
pub(crate) fn read_capacity(text: &str) -> Option<usize>
    ensures { result ≡ capacity_from text.now }
{
    text.parse::<usize>().ok()
}
