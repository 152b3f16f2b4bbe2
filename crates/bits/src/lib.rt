// Numbers read from bytes and written to them, most significant bit first.
#![tactic(auto)]

ghost use Rattle.std.specs.Prelude.{◌≡◌, ◌+◌, ◌*◌, ◌-◌, ◌%◌, ◌<◌, ◌≤◌, length, get_or};
ghost use Rattle.bits.specs.Field.{field, pack, splice, be, nines, half_nines, Within};

pub fn be16(s: &[u8], at: usize) -> u16
    requires { at + 2 ≤ length s.now }
    ensures { result ≡ field (8 * at) 16 s.now }
{
    u16::from_be_bytes([s[at], s[at + 1]])
}

pub fn be32(s: &[u8], at: usize) -> u32
    requires { at + 4 ≤ length s.now }
    ensures { result ≡ field (8 * at) 32 s.now }
{
    u32::from_be_bytes([s[at], s[at + 1], s[at + 2], s[at + 3]])
}

// The k-th of sixteen nine-bit numbers from byte at on: it lies in two bytes.
pub fn nine(s: &[u8], at: usize, k: usize) -> u16
    requires { (k < 16) × (at + 18 ≤ length s.now) }
    ensures { result ≡ field (8 * at + 9 * k) 9 s.now }
{
    let b = at + k + k / 8;
    (be16(s, b) >> (7 - k % 8)) % 512
}

pub fn put16(s: &mut [u8], at: usize, v: u16)
    requires { at + 2 ≤ length s.old }
    ensures { s.new ≡ splice at (be 2 v) s.old }
{
    s[at..at + 2].copy_from_slice(&v.to_be_bytes());
}

pub fn put32(s: &mut [u8], at: usize, v: u32)
    requires { at + 4 ≤ length s.old }
    ensures { s.new ≡ splice at (be 4 v) s.old }
{
    s[at..at + 4].copy_from_slice(&v.to_be_bytes());
}

// Byte j of eight nine-bit numbers, in nine bytes, holds the last j bits of the number before it ..
fn ends(ids: &[u16], j: usize) -> u16
    requires { (j < 9) × Within half_nines ids.now }
    ensures { result ≡ field (8 * j) j (pack half_nines ids.now) }
{
    if j == 0 {
        return 0;
    }
    ids[j - 1] % (1u16 << j)
}

// .. and the first 8 - j bits of number j.
fn begins(ids: &[u16], j: usize) -> u16
    requires { (j < 9) × Within half_nines ids.now }
    ensures { result ≡ field (9 * j) (8 - j) (pack half_nines ids.now) }
{
    if j == 8 {
        return 0;
    }
    ids[j] >> (j + 1)
}

fn nines_byte(ids: &[u16], j: usize) -> u8
    requires { (j < 9) × Within half_nines ids.now }
    ensures { result ≡ get_or (pack half_nines ids.now) j 0 }
{
    ((ends(ids, j) << (8 - j)) + begins(ids, j)) as u8
}

// Each of the nine bytes is made once, and none is read back. Nine turns are few enough for the compiler to unroll; eighteen are not.
fn put_half(s: &mut [u8], at: usize, ids: &[u16])
    requires { (at + 9 ≤ length s.old) × Within half_nines ids.now }
    ensures { s.new ≡ splice at (pack half_nines ids.now) s.old }
{
    let bytes: [u8; 9] = std::array::from_fn(|j| nines_byte(ids, j));
    s[at..at + 9].copy_from_slice(&bytes);
}

// In halves, as eight numbers end at a whole byte.
pub fn put_nines(s: &mut [u8], at: usize, ids: &[u16])
    requires { (at + 18 ≤ length s.old) × Within nines ids.now }
    ensures { s.new ≡ splice at (pack nines ids.now) s.old }
{
    put_half(s, at, &ids[0..8]);
    put_half(s, at + 9, &ids[8..16]);
}
