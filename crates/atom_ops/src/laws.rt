ghost use Rattle.atom_ops.specs.Floored.{AreFloored};
ghost use Rattle.atom_ops.specs.Rows.{AreRows};

/// At every divisor but 0 there is one floored quotient with its remainder, which operators give.
pub fn one_floored_quotient()
    ensures { AreFloored }
{}

/// The calls of this crate are rows of the operator table.
pub fn calls_are_rows()
    ensures { AreRows }
{}
