//! Laws of values, keys and lines. Each is the contract of a function that does nothing.
ghost use Rattle.nova_value.specs.Statements as law;

/// What is printed of a row is read as the row again, and likewise of a key that is removed.
pub fn lines_are_read_back()
    ensures rows { law.RowsReadBack }
    ensures removals { law.RemovalsReadBack }
{}

/// `row_from_text` reads exactly the lines of the forms, each as what it spells, and refuses each
/// other line for the cause that the forms give.
pub fn lines_are_forms()
    ensures spelled { law.LinesAreForms }
    ensures refused { law.FaultsAreForms }
{}

/// Values and keys are in total order, and only equal ones tie.
pub fn order_is_exact()
    ensures { law.IsExactOrder }
{}

/// A row that fits has a key that fits.
pub fn keys_fit()
    ensures { law.KeysFit }
{}

/// Numbers wrap in two's complement.
pub fn wraps_to_one()
    ensures { law.WrapsToOne }
{}

/// What `Schema::new` asks is what each schema keeps.
pub fn schemas_are_tested()
    ensures { law.SchemasAreTested }
{}
