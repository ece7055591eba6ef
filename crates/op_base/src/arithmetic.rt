//! The arithmetic of `Integer`: 32 bits with a sign, results wrapped (Free Pascal Reference Guide, "Integers" and
//! "Arithmetic operators").
ghost use Rattle.std.specs.Prelude.{◌≡◌, ◌≢◌, ◌/◌, ◌^◌, ◌+ℤ◌, ◌-ℤ◌, ◌*ℤ◌, pos, int_rem};
ghost use Rattle.std.specs.Int.{w32, int_wrap, int_shl, int_wrapping_div, cast_signed, cast_unsigned};
ghost use Rattle.op_base.specs.Arithmetic.{shift_count};

/// `a + b`, wrapped to 32 bits.
pub fn wrap_add(a: i32, b: i32) -> i32
    ensures { result ≡ int_wrap w32 (a +ℤ b) }
{
    a.wrapping_add(b)
}

/// `a - b`, wrapped to 32 bits.
pub fn wrap_sub(a: i32, b: i32) -> i32
    ensures { result ≡ int_wrap w32 (a -ℤ b) }
{
    a.wrapping_sub(b)
}

/// `a * b`, wrapped to 32 bits.
pub fn wrap_mul(a: i32, b: i32) -> i32
    ensures { result ≡ int_wrap w32 (a *ℤ b) }
{
    a.wrapping_mul(b)
}

/// `a shl b`: the bits of `a` moved to the left by the low five bits of `b`, zeros coming in.
pub fn shl5(a: i32, b: i32) -> i32
    ensures { result ≡ int_shl w32 a (shift_count b) }
{
    a.wrapping_shl(b.cast_unsigned())
}

/// `a shr b`: the bits of `a` moved to the right by the low five bits of `b`, zeros coming in.
pub fn shr_logical(a: i32, b: i32) -> i32
    ensures { result ≡ cast_signed w32 (cast_unsigned w32 a / 2 ^ shift_count b) }
{
    a.cast_unsigned()
        .wrapping_shr(b.cast_unsigned())
        .cast_signed()
}

/// `a div b`, rounded towards zero. The least number divided by -1 wraps to itself.
pub fn div_trunc(a: i32, b: i32) -> i32
    requires { b ≢ pos 0 }
    ensures { result ≡ int_wrapping_div w32 a b }
{
    a.wrapping_div(b)
}

/// `a mod b`, which has the sign of `a` and is 0 where `b` is -1.
pub fn rem_trunc(a: i32, b: i32) -> i32
    requires { b ≢ pos 0 }
    ensures { result ≡ int_rem a b }
{
    a.wrapping_rem(b)
}
