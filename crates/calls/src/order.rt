ghost use Rattle.std.specs.Prelude.{◌≡◌};
ghost use Rattle.calls.specs.Orders.{other_order, order_of};

use gate::letter::Letter;
use registers::op::Op;

// An order that is no gate: unused numbers are 0.
fn other_order(letter: char, x: u8, y: u8, z: u8) -> Option<Op>
    ensures { result ≡ other_order letter x y z }
{
    match letter {
        'I' if y == 0 => Some(Op::Invert {
            x: x as u32,
            z: z as u32,
        }),
        'D' if y == 0 => Some(Op::Copy {
            x: x as u32,
            z: z as u32,
        }),
        'C' if x == 0 && y == 0 => Some(Op::Clear { z: z as u32 }),
        _ => None,
    }
}

// The operation that four bytes stand for, if any.
pub fn order_of(letter: u8, x: u8, y: u8, z: u8) -> Option<Op>
    ensures { result ≡ order_of letter x y z }
{
    match Letter::try_from(letter as char) {
        Ok(gate) => Some(Op::Gate {
            letter: gate,
            x: x as u32,
            y: y as u32,
            z: z as u32,
        }),
        Err(_) => other_order(letter as char, x, y, z),
    }
}
