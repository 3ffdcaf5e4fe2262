//! Laws of plans. Each is the contract of a function that does nothing.
ghost use Rattle.nova_pig_algebra.specs.Statements as law;

/// A plan that has a key has no two rows that are equal at it, whatever the tables of its inputs;
/// and so it is with each node.
pub fn keys_tell_rows_apart()
    ensures plans { law.KeysTellRowsApart }
    ensures nodes { law.NodeKeysTellRowsApart }
{}

/// The key of a node is a rising list of its columns, whatever the plan.
pub fn keys_rise()
    ensures { law.KeysRise }
{}

/// A constant column of a node has its value in each row of the node, whatever the tables.
pub fn constants_hold()
    ensures { law.ConstantsHold }
{}

/// Over tables of its input schemas each row of a plan fits the schema of the output, and each row
/// of a node the kinds of the node.
pub fn rows_fit_their_kinds()
    ensures plans { law.RowsFitTheirKinds }
    ensures nodes { law.NodesFitTheirKinds }
{}

/// The tree of a node is made of the trees of the nodes that it names, which stand before it.
pub fn trees_are_of_earlier_nodes()
    ensures { law.TreesOfNodes }
{}

/// An expression over a group depends on the BY values and on what its own calls give, so it may
/// be computed from these alone.
pub fn expressions_depend_on_their_calls()
    ensures { law.DependsOnItsCalls }
{}
