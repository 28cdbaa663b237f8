ghost use Rattle.meaning.specs.Examples.{Examples};
ghost use Rattle.std.specs.Prelude.{◌≡◌, true};

fn examples_stand()
    ensures { Examples }
{}

// The worked examples of bounds, readings and behaviours hold from the definitions.
pub fn worked_examples_hold() -> bool
    ensures answer { result ≡ true }
    ensures examples { Examples }
{
    examples_stand();
    true
}
