// The functions with which C reads headers and commands.
#![tactic(auto)]

ghost use Rattle.std.specs.Prelude.{◌≡◌};
ghost use Rattle.inspect.specs.Image.{read_image};
ghost use Rattle.inspect.specs.Product.{read_product};
ghost use Rattle.inspect_command.specs.Command.{read_command};

use inspect::image_header::ImageRead;
use inspect::product_header::ProductRead;
use inspect_command::CommandRead;

// What an image header at an offset says, and the first rule that the image breaks.
#[unsafe(no_mangle)]
pub extern "C" fn und_read_image(memory: &[u8], offset: u32) -> ImageRead
    ensures { result ≡ read_image memory.now offset }
{
    inspect::image_header::read_image(memory, offset)
}

// What the product header at an offset says.
#[unsafe(no_mangle)]
pub extern "C" fn und_read_product(flash: &[u8], offset: u32) -> ProductRead
    ensures { result ≡ read_product flash.now offset }
{
    inspect::product_header::read_product(flash, offset)
}

// What a command's payload says.
#[unsafe(no_mangle)]
pub extern "C" fn und_read_command(opcode: u32, payload: &[u8]) -> CommandRead
    ensures { result ≡ read_command opcode payload.now }
{
    inspect_command::read_command(opcode, payload)
}
