//! The plan and the first fault of a script as relations, one case for each operator and one for
//! each row of the table of faults; a law ties the planner to them.
#![tactic(auto)]

ghost use Rattle.nova_pig_forms.specs.Faults as law;

/// `resolve` answers exactly the plans of the table of operators, and refuses each other script for
/// the first fault of the table of faults.
pub fn plans_are_forms()
    ensures plans { law.PlansAreForms }
    ensures faults { law.FaultsAreRows }
{}
