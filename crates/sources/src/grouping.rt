//! Digits of a source taken together.

ghost use Rattle.std.specs.Prelude.{◌≡◌, ◌+◌, ◌-◌, ◌/◌, ◌^◌, ◌≤◌, length, take, drop};
ghost use Rattle.std.specs.Int.Digits.{number_from_digits};
ghost use Rattle.sources.specs.Grouping.{used, odd, group_base, group_digits};
ghost use Rattle.sources.specs.GroupingLaws.{grouping_laws};

use crate::source::Source;

/// Takes `width` digits of a source of radix b as one digit of radix b ^ width.
///
/// The first digit takes the odd ones where the count is no multiple of the width.
/// A width outside 2 to 4, or one with b ^ width above 16, counts as 1.
#[derive(Drop)]
pub struct Grouping<S: Source> {
    source: S,
    width: u8,
}

impl<S: Source> Grouping<S> {
    /// The digits of `source` grouped; they write the same number.
    pub fn new(source: S, width: u8) -> Grouping<S>
        ensures base { group_base (S.base result.source) result.width ≡ group_base (S.base source) width }
        ensures digits { group_digits (S.base result.source) result.width (S.coming result.source) ≡ group_digits (S.base source) width (S.coming source) }
        ensures count { length (group_digits (S.base result.source) result.width (S.coming result.source)) ≡ (length (S.coming source) + used (S.base source) width - 1) / used (S.base source) width }
        ensures value { number_from_digits (group_base (S.base result.source) result.width) (group_digits (S.base result.source) result.width (S.coming result.source)) ≡ number_from_digits (S.base source) (S.coming source) }
    {
        Grouping { source, width }
    }

    /// How many digits are taken as one.
    fn used_width(&self) -> u8
        ensures { result ≡ used (S.base self.now.source) self.now.width }
    {
        match self.width {
            width @ 2..=4 if power(self.source.radix(), width) <= 16 => width,
            _ => 1,
        }
    }
}

impl<S: Source> Source for Grouping<S> {
    ghost base = { λ g. group_base (S.Source.base g.source) g.width };

    ghost coming = { λ g. group_digits (S.Source.base g.source) g.width (S.Source.coming g.source) };

    ghost laws = { grouping_laws (λ g. g.source) (λ g. g.width) S.Source.laws };

    fn radix(&self) -> u8 {
        power(self.source.radix(), self.used_width()) as u8
    }

    fn left(&self) -> usize {
        self.source.left().div_ceil(usize::from(self.used_width()))
    }

    fn next(&mut self) -> Option<u8> {
        let left = self.source.left();
        if left == 0 {
            return None;
        }
        let count = first_count(left, self.used_width());
        Some(joined(&mut self.source, count))
    }
}

/// `radix` to the power of `width`.
fn power(radix: u8, width: u8) -> u32
    requires radix { radix ≤ 16 }
    requires width { width ≤ 4 }
    ensures { result ≡ radix ^ width }
{
    u32::from(radix).pow(u32::from(width))
}

/// How many of the digits left the first group takes.
fn first_count(left: usize, width: u8) -> u8
    requires { 1 ≤ width }
    ensures { result ≡ odd width left }
{
    match (left % usize::from(width)) as u8 {
        0 => width,
        odd => odd,
    }
}

/// The next `count` digits of a source as one number.
fn joined<S: Source>(source: &mut S, count: u8) -> u8
    requires there { count ≤ length (S.coming source.old) }
    requires fits { S.base source.old ^ count ≤ 16 }
    ensures value { result ≡ number_from_digits (S.base source.old) (take count (S.coming source.old)) }
    ensures rest { S.coming source.new ≡ drop count (S.coming source.old) }
    ensures same { S.base source.new ≡ S.base source.old }
{
    let radix = source.radix();
    let mut value = 0;
    for _ in 0..count {
        let Some(digit) = source.next() else {
            unreachable!()
        };
        value = value * radix + digit;
    }
    value
}
