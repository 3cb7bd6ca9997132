// The functions with which C makes boot frames.
#![tactic(auto)]

ghost use Rattle.std.specs.Prelude.{◌≡◌};
ghost use Rattle.rom_flow.specs.declared.kind.Kind.TheVariants.{P, E};
ghost use Rattle.frame.specs.Frame.{written, framed_of};

use frame::Framed;
use rom_flow::kind::Kind;

// The boot frame of a code for a receiver of kind P.
#[unsafe(no_mangle)]
pub extern "C" fn und_frame_p(code: &[u8], out: &mut [u8]) -> Framed
    ensures { written result out.new ≡ framed_of P code.now out.old }
{
    frame::frame(Kind::P, code, out)
}

// The boot frame of a code for a receiver of kind E.
#[unsafe(no_mangle)]
pub extern "C" fn und_frame_e(code: &[u8], out: &mut [u8]) -> Framed
    ensures { written result out.new ≡ framed_of E code.now out.old }
{
    frame::frame(Kind::E, code, out)
}
