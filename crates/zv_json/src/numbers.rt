// The types of whole numbers.
ghost use Rattle.std.specs.Prelude.{◌≡◌, pos, refl};
ghost use Rattle.std.specs.Int.{w8, w16, w32, w64, w128};
ghost use Rattle.zv_json.specs.Back.{non_zero_in_range, signed_in_range};
ghost use Rattle.zv_json.specs.Back.{signed_non_zero_in_range, unsigned_in_range};
ghost use Rattle.zv_json.specs.Numbers.{non_zero_within, signed_non_zero_within};
ghost use Rattle.zv_json.specs.Numbers.{signed_unless_zero};
ghost use Rattle.zv_json.specs.Numbers.{signed_within, unless_zero, unsigned_within};

use crate::error::JsonError;
use crate::number::{JsonNumber, decimal_of, number_of, signed_key, unsigned_key};
use serde_json::Number;
use std::alloc::Global;
use std::num::{NonZeroI8, NonZeroU8};

impl JsonNumber for u8 {
    ghost integer = { pos };

    ghost within = { unsigned_within 8 };

    ghost in_range = { λ v h. unsigned_in_range 8 v refl h };

    fn to_number(self) -> Option<Number> {
        number_of(i128::from(self))
    }

    fn of_integer(number: i128) -> Option<u8> {
        u8::try_from(number).ok()
    }

    fn to_decimal(self, alloc: Global) -> Result<String, JsonError> {
        decimal_of(alloc, self)
    }

    fn of_decimal(text: &str) -> Option<u8> {
        u8::of_integer(signed_key(text)?)
    }
}

impl JsonNumber for u16 {
    ghost integer = { pos };

    ghost within = { unsigned_within 16 };

    ghost in_range = { λ v h. unsigned_in_range 16 v refl h };

    fn to_number(self) -> Option<Number> {
        number_of(i128::from(self))
    }

    fn of_integer(number: i128) -> Option<u16> {
        u16::try_from(number).ok()
    }

    fn to_decimal(self, alloc: Global) -> Result<String, JsonError> {
        decimal_of(alloc, self)
    }

    fn of_decimal(text: &str) -> Option<u16> {
        u16::of_integer(signed_key(text)?)
    }
}

impl JsonNumber for u32 {
    ghost integer = { pos };

    ghost within = { unsigned_within 32 };

    ghost in_range = { λ v h. unsigned_in_range 32 v refl h };

    fn to_number(self) -> Option<Number> {
        number_of(i128::from(self))
    }

    fn of_integer(number: i128) -> Option<u32> {
        u32::try_from(number).ok()
    }

    fn to_decimal(self, alloc: Global) -> Result<String, JsonError> {
        decimal_of(alloc, self)
    }

    fn of_decimal(text: &str) -> Option<u32> {
        u32::of_integer(signed_key(text)?)
    }
}

impl JsonNumber for u64 {
    ghost integer = { pos };

    ghost within = { unsigned_within 64 };

    ghost in_range = { λ v h. unsigned_in_range 64 v refl h };

    fn to_number(self) -> Option<Number> {
        number_of(i128::from(self))
    }

    fn of_integer(number: i128) -> Option<u64> {
        u64::try_from(number).ok()
    }

    fn to_decimal(self, alloc: Global) -> Result<String, JsonError> {
        decimal_of(alloc, self)
    }

    fn of_decimal(text: &str) -> Option<u64> {
        u64::of_integer(signed_key(text)?)
    }
}

impl JsonNumber for i8 {
    ghost integer = { λ v. v };

    ghost within = { signed_within 8 };

    ghost in_range = { λ v h. signed_in_range w8 v refl h };

    fn to_number(self) -> Option<Number> {
        number_of(i128::from(self))
    }

    fn of_integer(number: i128) -> Option<i8> {
        i8::try_from(number).ok()
    }

    fn to_decimal(self, alloc: Global) -> Result<String, JsonError> {
        decimal_of(alloc, self)
    }

    fn of_decimal(text: &str) -> Option<i8> {
        i8::of_integer(signed_key(text)?)
    }
}

impl JsonNumber for i16 {
    ghost integer = { λ v. v };

    ghost within = { signed_within 16 };

    ghost in_range = { λ v h. signed_in_range w16 v refl h };

    fn to_number(self) -> Option<Number> {
        number_of(i128::from(self))
    }

    fn of_integer(number: i128) -> Option<i16> {
        i16::try_from(number).ok()
    }

    fn to_decimal(self, alloc: Global) -> Result<String, JsonError> {
        decimal_of(alloc, self)
    }

    fn of_decimal(text: &str) -> Option<i16> {
        i16::of_integer(signed_key(text)?)
    }
}

impl JsonNumber for i32 {
    ghost integer = { λ v. v };

    ghost within = { signed_within 32 };

    ghost in_range = { λ v h. signed_in_range w32 v refl h };

    fn to_number(self) -> Option<Number> {
        number_of(i128::from(self))
    }

    fn of_integer(number: i128) -> Option<i32> {
        i32::try_from(number).ok()
    }

    fn to_decimal(self, alloc: Global) -> Result<String, JsonError> {
        decimal_of(alloc, self)
    }

    fn of_decimal(text: &str) -> Option<i32> {
        i32::of_integer(signed_key(text)?)
    }
}

impl JsonNumber for i64 {
    ghost integer = { λ v. v };

    ghost within = { signed_within 64 };

    ghost in_range = { λ v h. signed_in_range w64 v refl h };

    fn to_number(self) -> Option<Number> {
        number_of(i128::from(self))
    }

    fn of_integer(number: i128) -> Option<i64> {
        i64::try_from(number).ok()
    }

    fn to_decimal(self, alloc: Global) -> Result<String, JsonError> {
        decimal_of(alloc, self)
    }

    fn of_decimal(text: &str) -> Option<i64> {
        i64::of_integer(signed_key(text)?)
    }
}

impl JsonNumber for u128 {
    ghost integer = { pos };

    ghost within = { unsigned_within 128 };

    ghost in_range = { λ v h. unsigned_in_range 128 v refl h };

    fn to_number(self) -> Option<Number> {
        Number::from_u128(self)
    }

    fn of_integer(number: i128) -> Option<u128> {
        u128::try_from(number).ok()
    }

    fn to_decimal(self, alloc: Global) -> Result<String, JsonError> {
        decimal_of(alloc, self)
    }

    fn of_decimal(text: &str) -> Option<u128> {
        unsigned_key(text)
    }
}

impl JsonNumber for i128 {
    ghost integer = { λ v. v };

    ghost within = { signed_within 128 };

    ghost in_range = { λ v h. signed_in_range w128 v refl h };

    fn to_number(self) -> Option<Number> {
        number_of(self)
    }

    fn of_integer(number: i128) -> Option<i128> {
        Some(number)
    }

    fn to_decimal(self, alloc: Global) -> Result<String, JsonError> {
        decimal_of(alloc, self)
    }

    fn of_decimal(text: &str) -> Option<i128> {
        signed_key(text)
    }
}

/// A number, unless it is 0.
fn non_zero(n: u8) -> Option<NonZeroU8>
    ensures { result ≡ unless_zero n }
{
    NonZeroU8::new(n)
}

/// A number with a sign, unless it is 0.
fn signed_non_zero(n: i8) -> Option<NonZeroI8>
    ensures { result ≡ signed_unless_zero n }
{
    NonZeroI8::new(n)
}

impl JsonNumber for NonZeroU8 {
    ghost integer = { λ v. pos v.value };

    ghost within = { non_zero_within };

    ghost in_range = { non_zero_in_range };

    fn to_number(self) -> Option<Number> {
        self.get().to_number()
    }

    fn of_integer(number: i128) -> Option<NonZeroU8> {
        non_zero(u8::of_integer(number)?)
    }

    fn to_decimal(self, alloc: Global) -> Result<String, JsonError> {
        self.get().to_decimal(alloc)
    }

    fn of_decimal(text: &str) -> Option<NonZeroU8> {
        non_zero(u8::of_decimal(text)?)
    }
}

impl JsonNumber for NonZeroI8 {
    ghost integer = { λ v. v.value };

    ghost within = { signed_non_zero_within };

    ghost in_range = { signed_non_zero_in_range };

    fn to_number(self) -> Option<Number> {
        self.get().to_number()
    }

    fn of_integer(number: i128) -> Option<NonZeroI8> {
        signed_non_zero(i8::of_integer(number)?)
    }

    fn to_decimal(self, alloc: Global) -> Result<String, JsonError> {
        self.get().to_decimal(alloc)
    }

    fn of_decimal(text: &str) -> Option<NonZeroI8> {
        signed_non_zero(i8::of_decimal(text)?)
    }
}
