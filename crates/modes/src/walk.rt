// A walk over the blocks of a buffer, which every mode of operation is.
ghost use Rattle.std.specs.Prelude.{◌/◌, length};
ghost use Rattle.modes.specs.Walk.{Steps, Going};

use aes::State;

// Works through the whole blocks of a buffer, in place. Of the state that is carried to a block, and the block, mode makes what is stored for it and what is carried
// on. The answer is what is carried on from the last. By positions: after chunks_exact_mut a proof knows how long the buffer is, and not what it holds.
pub(crate) fn walk<F: Fn(State, State) -> (State, State)>(
    l: &mut [u8],
    start: State,
    mode: F,
) -> State
    requires { F.IsAlwaysCallable mode }
    ensures { (step : _) (next : _) → Steps (F.post mode) step next → Going step next l.old start (length l.old / 16) l.new result }
{
    let mut carried = start;
    for i in 0..l.len() / 16 {
        let (stored, next) = mode(carried, State::load(l, 16 * i));
        stored.store(l, 16 * i);
        carried = next;
    }
    carried
}
