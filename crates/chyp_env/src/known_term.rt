// Terms of which the type and the measures are known.
ghost use Rattle.std.specs.Prelude.{◌≡◌, ℕ, [], IfOk, IsOk, Err};
ghost use Rattle.chyp_term.specs.Limits.{IsWithinLimits};
ghost use Rattle.chyp_term.specs.Term.{morphism_of};
ghost use Rattle.chyp_syntax.specs.Term.{tree_of};
ghost use Rattle.chyp_env.specs.Expansion.{expansion_in};
ghost use Rattle.chyp_env.specs.Shape.{IsShape};
ghost use Rattle.chyp_env.specs.Scope.{term_at};
ghost use Rattle.chyp_env.specs.Sizes.{AreSizes};
ghost use Rattle.chyp_env.specs.Typing.{AllHold, FailsFirst, tests_of};

use crate::expansion::expand;
use crate::sizes::sizes_of;
use crate::typing::shape_of_tree;
use crate::{PlainWires, Scope, Sizes, TypeFault};
use chyp_base::NoMemory;
use chyp_syntax::TermAst;
use chyp_term::{Shape, Term, copy};
use std::alloc::Global;
use std::marker::Model;

/// A term with its type and its measures, which are found once. Contracts see it as its term, and it is
/// always typed and within the limits on one term.
#[derive(Debug, Drop)]
pub struct KnownTerm {
    term: Term,
    shape: Shape,
    sizes: Sizes,
}

impl Model for KnownTerm {
    ghost use Rattle.chyp_env.specs.Coded.{morphism_code};
    ghost use Rattle.chyp_env.specs.KnownTerm.{IsKnown};
    ghost use Rattle.chyp_term.specs.Morphism.{Morphism};
    ghost use Rattle.chyp_term.specs.Term.{morphism_of};

    ghost Value = { Morphism };

    ghost coded = { morphism_code };

    ghost view = { λ known. morphism_of known.term };

    ghost invariant = { λ known. IsKnown known.shape known.sizes (morphism_of known.term) };
}

impl KnownTerm {
    /// A term with its type and its measures. From then on its type is shared.
    ///
    /// # Errors
    ///
    /// `NoMemory` where the type can't be shared.
    pub fn new(term: Term, shape: Shape, sizes: Sizes) -> Result<KnownTerm, NoMemory>
        requires shape { IsShape shape (morphism_of term) }
        requires sizes { AreSizes sizes (morphism_of term) }
        requires small { IsWithinLimits (morphism_of term) }
        ensures { IfOk result (λ known. known ≡ morphism_of term) }
    {
        let shape = Shape {
            dom: shape.dom.into_shared()?,
            cod: shape.cod.into_shared()?,
        };
        Ok(KnownTerm { term, shape, sizes })
    }

    /// The term that a tree stands for where names stand for what they do in this environment, which is
    /// within the limits. It is typed before it is made, and goes by recursion as deep as it is.
    ///
    /// # Errors
    ///
    /// `Fails` exactly where a test of the tree fails, with the token of the first such test: a `sw`
    /// whose places are no permutation, or a `;` in front of a part whose domain is not the codomain of
    /// the part before it. `NoMemory` where the term can't be kept.
    pub fn of_tree(
        alloc: Global,
        plain: &PlainWires,
        tree: &TermAst,
        scope: &Scope<'_>,
    ) -> Result<KnownTerm, TypeFault>
        requires { IsWithinLimits (expansion_in (term_at scope.now) (tree_of tree.now)) }
        ensures holds { IsOk result → AllHold (tests_of (term_at scope.now) (tree_of tree.now)) }
        ensures term { IfOk result (λ known. known ≡ expansion_in (term_at scope.now) (tree_of tree.now)) }
        ensures fails { (token : ℕ) → result ≡ Err (TypeFault.Fails token) →
            FailsFirst (tests_of (term_at scope.now) (tree_of tree.now)) token }
    {
        let shape = shape_of_tree(alloc, plain, tree, scope)?;
        let sizes = sizes_of(tree, scope);
        let term = expand(alloc, plain, tree, scope)?;
        Ok(KnownTerm::new(term, shape, sizes)?)
    }

    /// The same term, in constant time.
    ///
    /// # Errors
    ///
    /// `NoMemory` where it can't be shared once more.
    pub fn share(&self) -> Result<KnownTerm, NoMemory>
        ensures { IfOk result (λ known. known ≡ self.now) }
    {
        let term = copy(&self.term)?;
        let shape = share_shape(&self.shape)?;
        let sizes = self.sizes;
        Ok(KnownTerm { term, shape, sizes })
    }

    /// The term.
    pub fn term(&self) -> &Term
        ensures { morphism_of result.now ≡ self.now }
    {
        &self.term
    }

    /// The term, handed over.
    pub fn into_term(self) -> Term
        ensures { morphism_of result ≡ self }
    {
        self.term
    }

    /// Its type.
    pub fn shape(&self) -> &Shape
        ensures { IsShape result.now self.now }
    {
        &self.shape
    }

    /// Its measures.
    pub fn sizes(&self) -> Sizes
        ensures { AreSizes result self.now }
    {
        self.sizes
    }

    /// Every known term is within the limits.
    pub fn small(&self)
        ensures { IsWithinLimits self.now }
    {
        let _ = &self.sizes;
    }
}

/// The same type.
///
/// # Errors
///
/// `NoMemory` where it can't be shared once more.
pub(crate) fn share_shape(shape: &Shape) -> Result<Shape, NoMemory>
    ensures dom { IfOk result (λ same. same.dom ≡ shape.now.dom) }
    ensures cod { IfOk result (λ same. same.cod ≡ shape.now.cod) }
{
    Ok(Shape {
        dom: shape.dom.share()?,
        cod: shape.cod.share()?,
    })
}
