//! What a line of text or an entry has a field for.
ghost use Rattle.std.specs.Prelude.{◌≡◌, ◌<◌, ◌≤◌, length, slice_index_or};
ghost use Rattle.nova_value.specs.declared.value.Kind.TheVariants.{Long};
ghost use Rattle.nova_value.specs.Signs.{kinds_for};

use crate::limit::MAX_COLUMNS;
use crate::schema::Schema;
use crate::value::Kind;

/// Whether a line or an entry puts a row or removes a key.
#[derive(Clone, Copy)]
pub enum Sign {
    Put,
    Removal,
}

/// How many fields it has: one for each column, or for each key column.
pub fn field_count(schema: &Schema, sign: Sign) -> usize
    ensures count { result ≡ length (kinds_for schema.now sign) }
    ensures few { result ≤ MAX_COLUMNS }
{
    match sign {
        Sign::Put => schema.columns().len(),
        Sign::Removal => schema.key().len(),
    }
}

/// The kind of field number `at`.
pub fn field_kind(schema: &Schema, sign: Sign, at: usize) -> Kind
    requires { at < length (kinds_for schema.now sign) }
    ensures { result ≡ slice_index_or (kinds_for schema.now sign) at Long }
{
    let columns = schema.columns();
    match sign {
        Sign::Put => columns[at].kind,
        Sign::Removal => columns[schema.key()[at] as usize].kind,
    }
}
