//! The names of the theories Core and Ints.
ghost use Rattle.std.specs.Prelude.{◌≡◌};
ghost use Rattle.smt_meaning.specs.Signature.{is_one_of, reserved_functions, reserved_sorts};
ghost use Rattle.smt_sorts.specs.Names.{core_names, ints_names};

/// Whether the name is that of a sort that no script may declare.
pub(crate) fn is_reserved_sort(name: &[u8]) -> bool
    ensures { result ≡ is_one_of name.now reserved_sorts }
{
    name == b"Bool".as_slice() || name == b"Int".as_slice()
}

/// Whether the name is that of a function that no script may declare.
pub(crate) fn is_reserved_function(name: &[u8]) -> bool
    ensures { result ≡ is_one_of name.now reserved_functions }
{
    is_of_core(name) || is_of_ints(name)
}

fn is_of_core(name: &[u8]) -> bool
    ensures { result ≡ is_one_of name.now core_names }
{
    name == b"true".as_slice()
        || name == b"false".as_slice()
        || name == b"not".as_slice()
        || name == b"and".as_slice()
        || name == b"or".as_slice()
        || name == b"xor".as_slice()
        || name == b"=>".as_slice()
        || name == b"=".as_slice()
        || name == b"distinct".as_slice()
        || name == b"ite".as_slice()
}

fn is_of_ints(name: &[u8]) -> bool
    ensures { result ≡ is_one_of name.now ints_names }
{
    name == b"+".as_slice()
        || name == b"-".as_slice()
        || name == b"*".as_slice()
        || name == b"<=".as_slice()
        || name == b"<".as_slice()
        || name == b">=".as_slice()
        || name == b">".as_slice()
        || name == b"div".as_slice()
        || name == b"mod".as_slice()
        || name == b"abs".as_slice()
}
