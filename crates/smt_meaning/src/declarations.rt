//! What is declared or defined under a name (SMT-LIB 2.6, section 4.2.3).
//!
//! Why a declaration has no field for its level: its level is the number of the frame that holds
//! it; a second statement of the same fact could only disagree with the first.
//!
//! Why a body is a list of trees: a definition's body is a tree, with the list of the trees that
//! were judged in it, and nothing in the definitions says where a body's nodes are kept. Code may
//! keep all bodies in one store with parameters as places, and a name that `:named` gives as a
//! place of the terms' store. `Declaration` and `Body` are for values that cross a border; bodies
//! share their terms, in parts.
ghost use Rattle.std.specs.Prelude.{◌≡◌, ◌<◌, true, false, length, Some, None, IfSome, IfNone};
ghost use Rattle.smt_meaning.specs.Term.{tree_at};
ghost use Rattle.smt_meaning.specs.Signature.{is_symbol};

use crate::nodes::Terms;
use crate::seq::{Bytes, Seq};
use crate::terms::TermId;
use crate::values::{Sort, SymId};
use std::marker::Model;

/// The rank of a function symbol (SMT-LIB 2.6, section 5.2): the sorts of its arguments and of its result.
#[derive(Drop)]
pub struct Rank {
    pub arguments: Seq<Sort>,
    pub result: Sort,
}

/// The body of a definition, with terms of its own.
#[derive(Drop)]
pub struct Body {
    terms: Terms,
    place: TermId,
}

impl Model for Body {
    ghost use Rattle.smt_meaning.specs.Term.{tree_at};
    ghost use Rattle.smt_meaning.specs.Declaration.{Body as BodyValue};
    ghost use Rattle.smt_meaning.specs.DeclarationCode.{coded_body};

    ghost Value = { BodyValue };

    ghost coded = { coded_body };

    ghost view = { λ b. record { terms = b.terms; term = tree_at b.terms b.place } };

    ghost use Rattle.std.specs.Prelude.{◌<◌, length};

    ghost invariant = { λ b. b.place < length b.terms };
}

impl Body {
    /// The body that stands at a place of the terms that were judged in it.
    pub fn new(terms: Terms, place: TermId) -> Self
        requires { place < length terms }
        ensures { result ≡ record { terms = terms; term = tree_at terms place } }
    {
        Body { terms, place }
    }

    /// The terms that were judged in it.
    pub fn terms(&self) -> &Terms
        ensures { result.now ≡ self.now.terms }
    {
        &self.terms
    }

    /// Its place among them.
    pub fn place(&self) -> TermId
        ensures within { result < length self.now.terms }
        ensures value { tree_at self.now.terms result ≡ self.now.term }
    {
        self.place
    }
}

/// What is declared or defined under a name.
#[derive(Drop)]
pub struct Declaration {
    id: SymId,
    name: Bytes,
    rank: Rank,
    body: Option<Body>,
    is_sort: bool,
    is_name: bool,
}

impl Model for Declaration {
    ghost use Rattle.smt_meaning.specs.Declaration.{Declaration as DeclarationValue};
    ghost use Rattle.smt_meaning.specs.DeclarationCode.{coded_declaration};

    ghost Value = { DeclarationValue };

    ghost coded = { coded_declaration };

    ghost view = { λ d. record { id = d.id; name = d.name; rank = d.rank; body = d.body; is_sort = d.is_sort; is_name = d.is_name } };
}

impl Declaration {
    /// A sort of this name, which stands for a sort.
    pub fn sort(id: SymId, name: Bytes, rank: Rank) -> Self
        ensures { result ≡ record { id = id; name = name; rank = rank; body = None; is_sort = true; is_name = false } }
    {
        Declaration {
            id,
            name,
            rank,
            body: None,
            is_sort: true,
            is_name: false,
        }
    }

    /// A function of this name and rank, defined where it has a body.
    pub fn function(id: SymId, name: Bytes, rank: Rank, body: Option<Body>) -> Self
        ensures { result ≡ record { id = id; name = name; rank = rank; body = body; is_sort = false; is_name = false } }
    {
        Declaration {
            id,
            name,
            rank,
            body,
            is_sort: false,
            is_name: false,
        }
    }

    /// A name that `:named` gives to a term, which is its body.
    pub fn name_of_term(id: SymId, name: Bytes, rank: Rank, body: Body) -> Self
        ensures { result ≡ record { id = id; name = name; rank = rank; body = Some body; is_sort = false; is_name = true } }
    {
        Declaration {
            id,
            name,
            rank,
            body: Some(body),
            is_sort: false,
            is_name: true,
        }
    }

    /// The number of the symbol.
    pub fn id(&self) -> SymId
        ensures { result ≡ self.now.id }
    {
        self.id
    }

    /// The name.
    pub fn name(&self) -> &Bytes
        ensures { result.now ≡ self.now.name }
    {
        &self.name
    }

    /// The sorts of the arguments and of the result.
    pub fn rank(&self) -> &Rank
        ensures { result.now ≡ self.now.rank }
    {
        &self.rank
    }

    /// The body of a definition.
    pub fn body(&self) -> Option<&Body>
        ensures some { IfSome result (λ b. self.now.body ≡ Some b.now) }
        ensures none { IfNone result (self.now.body ≡ None) }
    {
        match &self.body {
            Some(body) => Some(body),
            None => None,
        }
    }

    /// Whether the name is that of a sort.
    pub fn is_sort(&self) -> bool
        ensures { result ≡ self.now.is_sort }
    {
        self.is_sort
    }

    /// Whether `:named` gave the name, which then goes with its assertion.
    pub fn is_name(&self) -> bool
        ensures { result ≡ self.now.is_name }
    {
        self.is_name
    }

    /// Whether it is a declared function, which has no body.
    pub fn is_symbol(&self) -> bool
        ensures { result ≡ is_symbol self.now }
    {
        !self.is_sort && self.body.is_none()
    }
}
