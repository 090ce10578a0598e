// The elementary functions by number, bits in and bits out; `leaf_calls` has what the call does.
ghost use Rattle.std.specs.Prelude.{◌≡◌};
ghost use Rattle.leaf_calls.specs.Leaf.{leaf_of};

// The elementary function of this number over bit patterns; a NaN where there is none.
#[unsafe(no_mangle)]
pub extern "C" fn hf_leaf(which: u32, a: u32, b: u32) -> u32
    ensures { result ≡ leaf_of which a b }
{
    leaf_calls::by_number(which, a, b)
}
