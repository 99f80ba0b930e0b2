// Binary16.
ghost use Rattle.std.specs.Prelude.{◌≡◌};
ghost use Rattle.halves.specs.Binary16.{widened};
ghost use Rattle.halves.specs.How.{narrowing};
ghost use Rattle.c_answers.specs.Lost.{numbered_how};

use c_answers::number_of_how;

// `halves::f16_to_f32`, for C.
#[unsafe(no_mangle)]
pub extern "C" fn jambharrow_f16_to_f32(half: u16) -> f32
    ensures { result ≡ widened half }
{
    halves::f16_to_f32(half)
}

// `halves::f32_to_f16`, for C.
#[unsafe(no_mangle)]
pub extern "C" fn jambharrow_f32_to_f16(bits: u32, how: &mut u32) -> u16
    ensures { (result, how.new) ≡ numbered_how (narrowing bits) }
{
    let made = halves::f32_to_f16(bits);
    let fared = made.how;
    *how = number_of_how(fared);
    made.bits
}
