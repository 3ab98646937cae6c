//! Declared symbols by their names.
ghost use Rattle.std.specs.Prelude.{◌≡◌, false, Some, None, OnOk};
ghost use Rattle.proof_meaning.specs.Reading.{symbol_head};
ghost use Rattle.term_store.specs.Newest.{newest_named, hashes_of};
ghost use Rattle.proof_read.specs.SymbolTable.{name_of, FilesMore};

use smt_meaning::{Declaration, Head};
use std::alloc::{AllocError, Global};
use std::marker::Model;
use term_store::{HashIndex, Named, find, hash};

/// The first function of a name.
#[derive(Clone, Copy, Drop)]
pub(crate) struct Function<'a> {
    declaration: &'a Declaration,
}

impl Named for Function<'_> {
    ghost name = { λ f. f.declaration.now.name };

    fn name(&self) -> &[u8] {
        self.declaration.name().as_slice()
    }
}

/// The declarations of a signature, with the first function of each name.
#[derive(Drop)]
pub struct Symbols<'a> {
    declared: &'a [Declaration],
    functions: Vec<Function<'a>>,
    index: HashIndex,
}

impl<'a> Model for Symbols<'a> {
    ghost use Rattle.std.specs.Prelude.{List};
    ghost use Rattle.smt_meaning.specs.Declaration.{Declaration as DeclarationValue};

    ghost Value = { List DeclarationValue };

    ghost use Rattle.std.specs.Coded.{coded_list};
    ghost use Rattle.smt_meaning.specs.DeclarationCode.{coded_declaration};

    ghost coded = { coded_list coded_declaration };

    ghost view = { λ s. s.declared.now };

    ghost use Rattle.proof_read.specs.SymbolTable.{Files};

    ghost invariant = { λ s. Files s.declared.now s.functions.items s.index };
}

/// Files a function of a name that none has. An `Err` is for want of memory, as where 2^32 - 1 names are filed.
fn add<'a>(
    functions: &mut Vec<Function<'a>>,
    index: &mut HashIndex,
    declaration: &'a Declaration,
) -> Result<(), AllocError>
    requires hashed { index.old ≡ hashes_of name_of functions.old.items }
    requires function { declaration.now.is_sort ≡ false }
    requires none { newest_named name_of declaration.now.name functions.old.items ≡ None }
    ensures { OnOk result (FilesMore functions.old.items declaration.now functions.new.items index.new) }
{
    if functions.len() >= u32::MAX as usize {
        return Err(AllocError);
    }
    index.push(hash(declaration.name().as_slice()))?;
    functions.push(Function { declaration })?;
    Ok(())
}

/// Files a function, unless one of its name is filed already. A sort isn't filed.
fn file<'a>(
    functions: &mut Vec<Function<'a>>,
    index: &mut HashIndex,
    declaration: &'a Declaration,
) -> Result<(), AllocError>
    requires { index.old ≡ hashes_of name_of functions.old.items }
    ensures { OnOk result (FilesMore functions.old.items declaration.now functions.new.items index.new) }
{
    if declaration.is_sort() {
        return Ok(());
    }
    match find(functions, index, declaration.name().as_slice()) {
        Some(_) => Ok(()),
        None => add(functions, index, declaration),
    }
}

fn head_of(declaration: &Declaration) -> Option<Head>
    ensures { result ≡ symbol_head (Some declaration.now) }
{
    if declaration.is_symbol() {
        Some(Head::Symbol(declaration.id()))
    } else {
        None
    }
}

impl<'a> Symbols<'a> {
    ghost use Rattle.std.specs.Prelude.{◌≡◌, IfOk};
    ghost use Rattle.proof_meaning.specs.Reading.{symbol_head};
    ghost use Rattle.smt_meaning.specs.Signature.{find_function};

    /// The functions of a signature by their names.
    pub fn new(alloc: Global, declared: &'a [Declaration]) -> Result<Self, AllocError>
        ensures { IfOk result (λ s. s ≡ declared.now) }
    {
        let mut functions = Vec::new(alloc);
        let mut index = HashIndex::new(alloc);
        for declaration in declared {
            file(&mut functions, &mut index, declaration)?;
        }
        Ok(Symbols {
            declared,
            functions,
            index,
        })
    }

    /// The declared function of a name, unless it is defined or names a term.
    pub(crate) fn head(&self, name: &[u8]) -> Option<Head>
        ensures { result ≡ symbol_head (find_function name.now self.now) }
    {
        match find(&self.functions, &self.index, name) {
            Some(place) => head_of(self.functions[place].declaration),
            None => None,
        }
    }
}
