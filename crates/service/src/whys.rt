// Which slot a refusal is about, as one number; `why_calls` has what each call does.
ghost use Rattle.std.specs.Prelude.{◌≡◌};
ghost use Rattle.why_calls.specs.Why.{why_call, curtain_why_call};

// `set_up_why::why::why` of twenty parameters; 8 first for parameters of another number.
#[unsafe(no_mangle)]
pub extern "C" fn hf_why(parm: &[f32]) -> u64
    ensures { result ≡ why_call parm.now }
{
    why_calls::why(parm)
}

// `curtain_why::why::why` of twenty parameters; 8 first for parameters of another number.
#[unsafe(no_mangle)]
pub extern "C" fn hf_curtain_why(parm: &[f32]) -> u64
    ensures { result ≡ curtain_why_call parm.now }
{
    why_calls::curtain_why(parm)
}
