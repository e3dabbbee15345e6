//! What rows say of the usage of a class.
ghost use Rattle.std.specs.Prelude.{◌≡◌, ◌<◌, List, MatchOption, length};
ghost use Rattle.ld_class.specs.Names.{plain_class};
ghost use Rattle.ld_trace.specs.Sources.{PlainSource};
ghost use Rattle.ld_rules.specs.Union.{use_witness};
ghost use Rattle.ld_rules.specs.Usage.{Bit, IsBit, bit_of};
ghost use Rattle.ld_union.specs.Inner.ByName.{class_name};
ghost use Rattle.ld_union.specs.Inner.Rows.{IsNoted};
ghost use Rattle.ld_union.specs.Inner.Walks.{first_at, marks_at, named_at};
ghost use Rattle.ld_union.specs.Inner.Union.{Shows};
ghost use Rattle.ld_union.specs.Violations.{HasBit};

use crate::union::Union;
use ld_class::{ClassName, Usage};
use ld_rules::Witness;

/// What the rows say of a class that has a bit.
#[derive(Clone, Copy)]
pub(crate) struct UsedClass<'a> {
    pub(crate) name: ClassName<'a>,
    /// The usage characters of the class.
    pub(crate) marks: [u8; 4],
    /// Where the bit was first seen.
    pub(crate) at: Witness,
}

/// What the rows say of a class that has the bit, or `None` where it doesn't have it.
pub(crate) fn noted<'a>(union: &Union<'a>, class: u32, bit: Usage) -> Option<UsedClass<'a>>
    requires class { class < length union.now.classes }
    requires bit { IsBit bit }
    ensures { (sources : List PlainSource)
        → Shows sources union.now
        → MatchOption result (¬ HasBit sources (class_name union.now.classes class) (bit_of bit))
        (λ n. IsNoted sources (class_name union.now.classes class) (bit_of bit)
        (plain_class n.name) n.marks n.at) }
{
    let usage = &union.usage()[class as usize];
    Some(UsedClass {
        name: union.classes().name(class),
        marks: usage.bits.marks(),
        at: usage.witness(bit)?,
    })
}

/// What the rows say of a class that has the bit.
pub(crate) fn used_class<'a>(union: &Union<'a>, class: u32, bit: Usage) -> UsedClass<'a>
    requires class { class < length union.now.classes }
    requires bit { IsBit bit }
    ensures name { plain_class result.name ≡ named_at union.now class }
    ensures marks { result.marks ≡ marks_at union.now class }
    ensures at { result.at ≡ first_at union.now class (bit_of bit) }
{
    let usage = &union.usage()[class as usize];
    UsedClass {
        name: union.classes().name(class),
        marks: usage.bits.marks(),
        at: usage.witness(bit).unwrap_or(NOWHERE),
    }
}

/// What stands for the place of a bit that wasn't seen: no row is of such a bit.
const NOWHERE: Witness = Witness { number: 0, line: 0 };
