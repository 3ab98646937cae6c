//! The terms of a proof: their nodes, sorts, linear forms, and which of the stack's terms they are.
ghost use Rattle.std.specs.Prelude.{◌≡◌};

use crate::terms_bounds::Comparison;
use crate::terms_held::copy;
use crate::terms_table::TermTable;
use crate::{terms_bounds, terms_rows};
use pair_bounds::RowLimit;
use scope_stack::Stack;
use smt_meaning::{Head, Node, Sort, Summand, TermId};
use std::alloc::{AllocError, Global};
use std::marker::Model;
use term_store::Node as NodeView;

/// Why a bound isn't folded.
#[derive(Clone, Copy, PartialEq, Eq, Drop)]
pub(crate) enum Stop {
    /// A number leaves the range.
    Range,
    /// Memory is wanting.
    Memory,
}

/// The terms of a proof so far.
#[derive(Drop)]
pub struct Terms<'a> {
    stack: &'a Stack,
    table: TermTable,
}

impl<'a> Model for Terms<'a> {
    ghost use Rattle.smt_meaning.specs.Stack.{signature_of};
    ghost use Rattle.smt_meaning.specs.Nodes.{trees_of};
    ghost use Rattle.proof_terms.specs.Terms.{ProofTerms};

    ghost Value = { ProofTerms };

    ghost use Rattle.proof_terms.specs.Terms.{terms_code};

    ghost coded = { terms_code };

    ghost view = { λ t. record { declared = signature_of t.stack.now.frames; held = t.stack.now.trees; nodes = t.table.nodes; trees = trees_of t.table.nodes } };

    ghost use Rattle.proof_terms.specs.TermTable.{IsTable};

    ghost invariant = { λ t. IsTable (signature_of t.stack.now.frames) t.stack.now.trees t.table };
}

impl<'a> Terms<'a> {
    ghost use Rattle.std.specs.Prelude.{◌≡◌, ◌<◌, ◌≤◌, ◌+◌, ◌^◌, ◌↔◌, [], true, false, length, All, Ok, Err, Some, IfOk, IfErr, OnErr, IsTrue, neg_ℤ};
    ghost use Rattle.smt_meaning.specs.Stack.{signature_of};
    ghost use Rattle.smt_meaning.specs.declared.clauses.Atom.TheVariants.{AtMost};
    ghost use Rattle.smt_meaning.specs.Term.{tree_at};
    ghost use Rattle.proof_meaning.specs.Proof.{IsTerm, AreTerms, term_sort, meant, node_at};
    ghost use Rattle.proof_terms.specs.Comparing.{compared, compared_fits};
    ghost use Rattle.proof_terms.specs.Terms.{with_term, IsBoundOf};

    /// No term, beside a stack.
    pub fn new(alloc: Global, stack: &'a Stack) -> Result<Self, AllocError>
        ensures { IfOk result (λ t. t ≡ record { declared = signature_of stack.now.frames; held = stack.now.trees; nodes = []; trees = [] }) }
    {
        let held = copy(alloc, stack.terms())?;
        Ok(Terms {
            stack,
            table: TermTable::new(alloc, held),
        })
    }

    /// Adds a term, if it is one that an assertion may have. An `Err`, for want of memory as where 2^32 - 1 terms are there, changes nothing.
    pub fn add(&mut self, node: &Node) -> Result<bool, AllocError>
        ensures term { result ≡ Ok true → IsTerm self.old.declared self.old.trees node.now × (self.new ≡ with_term self.old node.now) }
        ensures other { result ≡ Ok false → (IsTerm self.old.declared self.old.trees node.now → ⊥) × (self.new ≡ self.old) }
        ensures err { OnErr result (self.new ≡ self.old) }
    {
        self.table
            .add(self.stack, node.head, node.arguments.as_slice())
    }

    /// How many terms there are.
    pub fn len(&self) -> usize
        ensures count { result ≡ length self.now.nodes }
        ensures trees { length self.now.trees ≡ length self.now.nodes }
        ensures few { length self.now.nodes < 2 ^ 32 }
        ensures terms { AreTerms self.now.declared self.now.nodes self.now.trees }
    {
        self.table.nodes.len()
    }

    /// The node of a term, as it is written.
    pub fn node(&self, place: TermId) -> NodeView<'_>
        requires { place < length self.now.nodes }
        ensures node { node_at self.now.nodes place ≡ record { head = result.head; arguments = result.arguments.now } }
        ensures earlier { All (λ i. i < place) result.arguments.now }
    {
        self.table.nodes.node(place as usize)
    }

    /// The sort of a term.
    pub(crate) fn sort(&self, place: TermId) -> Sort
        requires { place < length self.now.nodes }
        ensures { term_sort self.now.declared (tree_at self.now.trees place) ≡ Some result }
    {
        self.table.fact(place).sort
    }

    /// Whether a term stands for the term of the stack at this place.
    pub fn is_held(&self, place: TermId, held: TermId) -> bool
        requires place { place < length self.now.nodes }
        requires held { held < length self.now.held }
        ensures { IsTrue result ↔ (meant (tree_at self.now.trees place) ≡ tree_at self.now.held held) }
    {
        self.table.fact(place).held == Some(held)
    }

    /// A bound by which two terms compare: in normal form, or folded and not divided. Leaves in the list, whatever it was before, the sum.
    pub(crate) fn compared(
        &mut self,
        comparison: Comparison,
        left: TermId,
        right: TermId,
        sum: &mut Vec<Summand>,
    ) -> Result<i128, Stop>
        requires left { left < length self.old.nodes }
        requires right { right < length self.old.nodes }
        ensures ok { IfOk result (λ k. (compared_fits comparison self.old.trees left right ≡ true) × IsBoundOf (compared comparison self.old.trees left right) sum.new.items k) }
        ensures range { result ≡ Err Stop.Range → compared_fits comparison self.old.trees left right ≡ false }
        ensures same { self.new ≡ self.old }
    {
        let left = self.table.places[left as usize];
        let right = self.table.places[right as usize];
        terms_bounds::compared(
            &mut self.table.forms,
            &self.table.distinct,
            comparison,
            left,
            right,
            sum,
        )
    }
}

impl<'a> Terms<'a> {
    ghost use Rattle.std.specs.Prelude.{◌≡◌, ◌<◌, true, false, length, All, Err, IfOk, MatchOption};
    ghost use Rattle.smt_meaning.specs.Atoms.{limit_atom};
    ghost use Rattle.term_store.specs.Terms.{tree_with, IsPlace, IsNew};
    ghost use Rattle.pair_bounds.specs.Rows.{limit_of_row, IsRowLimit};
    ghost use Rattle.smt_laws.specs.Rows.{place_form};
    ghost use Rattle.proof_terms.specs.Range.{limit_stays};
    ghost use Rattle.proof_terms.specs.Terms.{IsBoundOf};
    ghost use Rattle.proof_terms.specs.TermRows.{IsDivisor, DivisorLeaves};

    /// The first term with this head and, as its arguments, the trees of these terms.
    pub(crate) fn term_with(
        &mut self,
        head: Head,
        arguments: &[TermId],
    ) -> Result<Option<TermId>, AllocError>
        requires { All (λ i. i < length self.old.nodes) arguments.now }
        ensures ok { IfOk result (λ o. MatchOption o (IsNew self.old.trees (tree_with self.old.trees head arguments.now)) (λ i. IsPlace self.old.trees i (tree_with self.old.trees head arguments.now))) }
        ensures same { self.new ≡ self.old }
    {
        terms_rows::term_with(
            &mut self.table.distinct,
            &mut self.table.arguments,
            &self.table.places,
            head,
            arguments,
        )
    }

    /// The number by which a term is divided, where another is the divisor.
    pub(crate) fn divisor(&mut self, argument: TermId, divisor: TermId) -> Result<i128, Stop>
        requires argument { argument < length self.old.nodes }
        requires divisor { divisor < length self.old.nodes }
        ensures ok { IfOk result (λ n. IsDivisor self.old.trees divisor n) }
        ensures range { result ≡ Err Stop.Range → DivisorLeaves self.old.trees divisor }
        ensures same { self.new ≡ self.old }
    {
        let argument = self.table.places[argument as usize];
        let divisor = self.table.places[divisor as usize];
        terms_rows::divisor(
            &mut self.table.forms,
            &self.table.distinct,
            argument,
            divisor,
        )
    }

    /// A limit as a bound in normal form. Leaves in the list, whatever it was before, the sum.
    pub(crate) fn limit_bound(
        &mut self,
        limit: RowLimit,
        sum: &mut Vec<Summand>,
    ) -> Result<i128, Stop>
        requires { IsRowLimit (length self.old.nodes) limit }
        ensures ok { IfOk result (λ k. (limit_stays self.old.trees (limit_of_row limit) ≡ true) × IsBoundOf (limit_atom (place_form self.old.trees) (limit_of_row limit)) sum.new.items k) }
        ensures range { result ≡ Err Stop.Range → limit_stays self.old.trees (limit_of_row limit) ≡ false }
        ensures same { self.new ≡ self.old }
    {
        let limit = terms_rows::limit_at(&self.table.places, limit);
        terms_rows::limit_bound(&mut self.table.forms, &self.table.distinct, limit, sum)
    }
}
