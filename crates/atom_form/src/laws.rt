//! What holds of the atoms of bounds, as contracts of functions that do nothing.
ghost use Rattle.atom_form.specs.BoundTableAtoms.{AtomsAreDifferent, AtomsStay};

/// Where no sum has two numbers, different bounds are different atoms.
pub fn atoms_are_different()
    ensures { AtomsAreDifferent }
{}

/// The atoms stay the same while more sums get numbers.
pub fn atoms_stay()
    ensures { AtomsStay }
{}
