// The draws of a program.
ghost use Rattle.std.specs.Prelude.{◌≡◌};
ghost use Rattle.load_gen.specs.Generated.{moved, draw as draw_at};

/// Draws a number, and moves the state on.
#[tactic(auto, unfolding(crate::specs::Generated::moved, crate::specs::Generated::draw))]
pub(crate) fn draw(state: &mut u64) -> u64
    ensures moved { state.new ≡ moved state.old }
    ensures drawn { result ≡ draw_at state.old }
{
    gc_base::draw(state)
}
