#![tactic(auto)]
// The order of names.
ghost use Rattle.std.specs.Prelude.{◌≡◌, ◌+◌, ◌≤◌, length, min};
ghost use Rattle.name_order.specs.Order.{order_of, number};

use std::cmp::Ordering;

// By the first byte in which they differ; a name that ends there is less. Eight bytes at a time, as one number.
// kept: three ways by length: by `a.cmp(b)` 4 to 30 bytes take 2 to 6 ns more, and of the goal of 10 ns an entry the test takes 8.3 (bench/RESULTS.md).
pub fn compare(a: &[u8], b: &[u8]) -> Ordering
    ensures { result ≡ order_of a.now b.now }
{
    let n = a.len().min(b.len());
    if n < 4 {
        return a.cmp(b);
    }
    if n < 8 {
        return compare_short(a, b, n);
    }
    compare_long(a, b, n)
}

// The same of names of which the shorter has n bytes, at least eight. The last eight bytes before n may begin before those that are
// left: what they have there is the same.
fn compare_long(a: &[u8], b: &[u8], n: usize) -> Ordering
    requires { (8 ≤ n) × (n ≡ min (length a.now) (length b.now)) }
    ensures { result ≡ order_of a.now b.now }
{
    let (xs, _) = a[..n - 1].as_chunks::<8>();
    let (ys, _) = b[..n - 1].as_chunks::<8>();
    for (x, y) in xs.iter().zip(ys) {
        let order = word(x, 0).cmp(&word(y, 0));
        if order.is_ne() {
            return order;
        }
    }
    let e = n - 8;
    word(a, e).cmp(&word(b, e)).then(a.len().cmp(&b.len()))
}

// The same of at least four bytes and at most eight: the first four, and the last four.
fn compare_short(a: &[u8], b: &[u8], n: usize) -> Ordering
    requires { (4 ≤ n) × (n ≤ 8) × (n ≡ min (length a.now) (length b.now)) }
    ensures { result ≡ order_of a.now b.now }
{
    let e = n - 4;
    let last = half(a, e).cmp(&half(b, e)).then(a.len().cmp(&b.len()));
    half(a, 0).cmp(&half(b, 0)).then(last)
}

// The first eight bytes of a name as one number, with zeros where it is shorter. A short one byte by byte: for a copy of as many bytes
// as it has the compiler calls memcpy, which the library for C would then need from outside.
pub fn key(name: &[u8]) -> u64
    ensures { result ≡ number 8 0 name.now }
{
    if 8 <= name.len() {
        return word(name, 0);
    }
    let mut first = 0;
    for i in 0..8 {
        first = first * 256 + u64::from(name.get(i).copied().unwrap_or(0));
    }
    first
}

// Eight bytes from i on as one number, the first byte the highest.
pub fn word(s: &[u8], i: usize) -> u64
    requires { i + 8 ≤ length s.now }
    ensures { result ≡ number 8 i s.now }
{
    u64::from_be_bytes(s[i..i + 8].try_into().unwrap())
}

// Four bytes from i on.
// kept: beside `word`, since a trait for two bodies of one line would be longer than both.
fn half(s: &[u8], i: usize) -> u32
    requires { i + 4 ≤ length s.now }
    ensures { result ≡ number 4 i s.now }
{
    u32::from_be_bytes(s[i..i + 4].try_into().unwrap())
}
