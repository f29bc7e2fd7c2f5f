// The lines that show a hart's registers.
ghost use Rattle.std.specs.Prelude.{◌≡◌, ◌<◌, ◌≤◌, ℕ, ◌+◌, ◌*◌, ◌++◌, List, [], ◌∷◌, length, codes, decimal};
ghost use Rattle.session.specs.Registers.{value_line, set_line, x_lines, csr_lines, register_lines};

use gc_text::{LineBuf, put_dec, put_hex16, put_text};
use rv_step::Arch;

/// Appends a line of a name and a value.
fn put_value(text: &mut LineBuf, name: &[u8], value: u64)
    requires { length text.old + length name.now + 18 ≤ 1024 }
    ensures line { text.new ≡ text.old ++ value_line name.now value }
    ensures room { length text.new ≡ length text.old + length name.now + 18 }
{
    put_text(text, name);
    put_text(text, b" ");
    put_hex16(text, value);
    put_text(text, b"\n");
}

/// The same where the value isn't 0.
fn put_set(text: &mut LineBuf, name: &[u8], value: u64)
    requires { length text.old + length name.now + 18 ≤ 1024 }
    ensures line { text.new ≡ text.old ++ set_line name.now value }
    ensures room { length text.new ≤ length text.old + length name.now + 18 }
{
    if value != 0 {
        put_value(text, name, value);
    }
}

/// The lines of x1 to x31.
fn put_x_registers(text: &mut LineBuf, x: &[u64; 32])
    requires { length text.old ≤ 100 }
    ensures lines { text.new ≡ text.old ++ x_lines x.now 31 }
    ensures room { length text.new ≤ length text.old + 651 }
{
    for k in 1..32 {
        put_x_register(text, k, x[k as usize]);
    }
}

fn put_x_register(text: &mut LineBuf, k: u8, value: u64)
    requires room { length text.old ≤ 800 }
    requires number { k < 100 }
    ensures line { text.new ≡ text.old ++ set_line (codes "x" ++ decimal k) value }
    ensures room { length text.new ≤ length text.old + 21 }
{
    let mut name = LineBuf::new();
    put_text(&mut name, b"x");
    put_dec(&mut name, k as u64);
    put_set(text, name.bytes(), value);
}

/// The lines of the control registers.
fn put_csrs(text: &mut LineBuf, a: &Arch)
    requires { length text.old ≤ 800 }
    ensures lines { text.new ≡ text.old ++ csr_lines a.now }
    ensures room { length text.new ≤ length text.old + 188 }
{
    put_set(text, b"mstatus", a.mstatus);
    put_set(text, b"mie", a.mie);
    put_set(text, b"mip", a.mip);
    put_set(text, b"mtvec", a.mtvec);
    put_set(text, b"mscratch", a.mscratch);
    put_set(text, b"mepc", a.mepc);
    put_set(text, b"mcause", a.mcause);
    put_set(text, b"mtval", a.mtval);
}

/// Appends pc, and each register that isn't 0.
pub(crate) fn put_registers(text: &mut LineBuf, a: &Arch)
    requires { length text.old ≤ 80 }
    ensures { text.new ≡ text.old ++ register_lines a.now }
{
    put_value(text, b"pc", a.pc);
    put_x_registers(text, &a.x);
    put_csrs(text, a);
}
