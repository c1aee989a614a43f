// The next numbers, of tokens and of handles.
ghost use Rattle.std.specs.Prelude.{◌<◌, get_or};
ghost use Rattle.rules.specs.Number.{max64};
ghost use Rattle.rules.specs.Memory.{counter_words};
ghost use Rattle.control.specs.Counters.{NextGiven, Stepped};

use crate::layout::CONTROL_WORDS;

// The number that the next record gets.
pub fn next(counter: usize, control: &[u64; CONTROL_WORDS]) -> u64
    requires { (counter < counter_words) }
    ensures { NextGiven counter control.now result }
{
    control[counter]
}

// The next number is given.
pub fn step(counter: usize, control: &mut [u64; CONTROL_WORDS])
    requires { (counter < counter_words) × (get_or control.old counter 0 < max64) }
    ensures { Stepped counter control.old control.new }
{
    control[counter] = control[counter] + 1;
}
