// Floats laid over the first ones of a lent slice.
ghost use Rattle.std.specs.Prelude.{◌≡◌, ◌≤◌, length};
ghost use Rattle.words.specs.Laid.{laid};

// Inner step: of set-up and row, once all their numbers exist.
#[tactic(auto, unfolding(words::specs::Laid::laid))]
pub fn lay_over(t: &[f32], lent: &mut [f32])
    requires { length t.now ≤ length lent.old }
    ensures { lent.new ≡ laid lent.old 0 t.now }
{
    lent[..t.len()].copy_from_slice(t);
}
