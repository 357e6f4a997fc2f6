ghost use Rattle.std.specs.Prelude.{◌≡◌, ◌++◌, codes};
ghost use Rattle.std.specs.Fmt.{decimal};
ghost use Rattle.status.specs.line_room.Room.{Fits, with_text};
ghost use Rattle.store_bytes.specs.store_head.FaultText.{field_text};
ghost use Rattle.status.specs.FaultText.{damage_text, digest_digits as digest_digits_of, store_text};

use crate::StoreFault;
use crate::digits::digest_digits;
use crate::line_room::LineRoom;
use segment_store::Damage;
use store_bytes::store_head::Field;

pub(crate) fn push_store(line: &mut LineRoom, fault: StoreFault)
    requires { Fits line.old (codes "store: " ++ store_text fault ++ codes "\n") }
    ensures { line.new ≡ with_text line.old (codes "store: " ++ store_text fault ++ codes "\n") }
{
    line.push(b"store: ");
    push_fault(line, fault);
    line.push(b"\n");
}

fn push_fault(line: &mut LineRoom, fault: StoreFault)
    requires { Fits line.old (store_text fault) }
    ensures { line.new ≡ with_text line.old (store_text fault) }
{
    match fault {
        StoreFault::NotAStore => line.push(b"not a store"),
        StoreFault::Version(version) => {
            line.push(b"version ");
            line.push_number(version.into());
        }
        StoreFault::Differs { field, kept, found } => {
            push_field(line, field);
            line.push(b" was ");
            line.push_signed(kept);
            line.push(b", is ");
            line.push_signed(found);
        }
        StoreFault::Damaged { index, damage } => {
            line.push(b"damaged at ");
            line.push_number(index);
            push_damage(line, damage);
        }
        StoreFault::NotEmpty { size } => {
            line.push(b"not empty, ");
            line.push_number(size);
            line.push(b" bytes");
        }
    }
}

fn push_field(line: &mut LineRoom, field: Field)
    requires { Fits line.old (field_text field) }
    ensures { line.new ≡ with_text line.old (field_text field) }
{
    match field {
        Field::Gauges => line.push(b"gauges"),
        Field::Classes => line.push(b"classes"),
        Field::Width => line.push(b"width"),
        Field::Low => line.push(b"low"),
        Field::Reference => line.push(b"reference"),
        Field::Num(gauge) => push_word(line, b"num ", gauge),
        Field::Den(gauge) => push_word(line, b"den ", gauge),
        Field::Offset(gauge) => push_word(line, b"offset ", gauge),
    }
}

fn push_word(line: &mut LineRoom, word: &[u8], gauge: u16)
    requires { Fits line.old (word.now ++ decimal gauge) }
    ensures { line.new ≡ with_text line.old (word.now ++ decimal gauge) }
{
    line.push(word);
    line.push_number(gauge.into());
}

fn push_damage(line: &mut LineRoom, damage: Damage)
    requires { Fits line.old (damage_text damage) }
    ensures { line.new ≡ with_text line.old (damage_text damage) }
{
    if let Damage::Digest { kept, found } = damage {
        line.push(b", kept ");
        push_digest(line, &kept);
        line.push(b", found ");
        push_digest(line, &found);
    }
}

// The 64 hexadecimal digits of a digest.
fn push_digest(line: &mut LineRoom, digest: &[u8; 32])
    requires { Fits line.old (digest_digits_of digest.now) }
    ensures { line.new ≡ with_text line.old (digest_digits_of digest.now) }
{
    line.push(digest_digits(digest).as_bytes());
}
