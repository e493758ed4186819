//! Numbers of two, four and eight bytes, the lowest byte first, written one after the other.
ghost use Rattle.std.specs.Prelude.{◌≡◌, ◌+◌, ◌≤◌, ◌++◌, length, drop};
ghost use Rattle.xr_base.specs.Image.{overlaid};
ghost use Rattle.xr_items.specs.Fields.{field_bytes, width, widths, bytes_of_fields};

use byteorder::{ByteOrder, LittleEndian};

/// A number in a format region.
#[derive(Clone, Copy)]
pub enum Field {
    /// Of two bytes.
    Half(u16),
    /// Of four bytes.
    Word(u32),
    /// Of eight bytes.
    Long(u64),
}

fn width_of(field: Field) -> usize
    ensures { result ≡ width field }
{
    match field {
        Field::Half(_) => 2,
        Field::Word(_) => 4,
        Field::Long(_) => 8,
    }
}

/// Writes a field and answers the place after it.
fn put_field(field: Field, place: usize, out: &mut [u8]) -> usize
    requires { place + width field ≤ length out.old }
    ensures written { out.new ≡ overlaid place (field_bytes field) out.old }
    ensures next { result ≡ place + width field }
{
    let next = place + width_of(field);
    let rest = &mut out[place..next];
    match field {
        Field::Half(number) => LittleEndian::write_u16(rest, number),
        Field::Word(number) => LittleEndian::write_u32(rest, number),
        Field::Long(number) => LittleEndian::write_u64(rest, number),
    }
    next
}

/// Writes the fields to the front and answers their length.
pub(crate) fn put_fields(fields: &[Field], out: &mut [u8]) -> usize
    requires { widths fields.now ≤ length out.old }
    ensures written { out.new ≡ bytes_of_fields fields.now ++ drop result out.old }
    ensures length { result ≡ length (bytes_of_fields fields.now) }
{
    let mut place = 0;
    for field in fields {
        place = put_field(*field, place, out);
    }
    place
}
