//! Proofs that are good, and proofs that are spoiled in one place, with what is found of each: drawn by
//! `bench/proofs.py rust 1`, which judges them too.
use super::{calm, outcome};
use std::alloc::{AllocError, Global};
use std::process::Abort;
use std::test::Fail;

/// How many scripts there are.
const COUNT: usize = 200;

/// Scripts, 80 with good proofs first. Behind each stands a line with what is found, the status, and the line that is written.
static ROWS: &[u8] =
    b"(declare-const p Bool)(assert(not p))(check-sat-assuming(p))(get-proof)(((p)(not 0))((form 1(not(t 1))(not(t 0)))(assert 0 1)(assert 1 0)(res 0 2(not(t 0)))(res 1 3(t 1))))
== Yes 0 yes
(push 3)(reset)(declare-const p Bool)(assert(not p))(assert(and p p))(check-sat)(get-assertions)(get-proof)(((p)(and 0 0)(not 0))((form 1(t 0)(not(t 1)))(assert 0 2)(form 2(not(t 2))(not(t 0)))(assert 1 1)(res 0 3(not(t 1)))(res 2 4(not(t 0)))(res 1 5(t 2))))
== Yes 0 yes
(set-option :global-declarations true)(push 1)(declare-const p Bool)(declare-const q Bool)(assert false)(pop 1)(assert q)(assert(not(or q p q q)))(check-sat)(get-proof)(((q)(|p|)(or 0 1 0 0)(not 2))((form 2(not(t 0))(t 2))(assert 0 0)(assert 1 3)(form 3(not(t 3))(not(t 2)))(res 2 3(t 3))(res 0 4(t 2))(res 1 5(t 0))))
; end
== Yes 0 yes
(declare-const p Bool)(declare-const q Bool)(assert(not q))(assert(let((k(xor p q p)))k))(check-sat)(get-proof)(((q)(p)(xor 1 0 1)(not 0))((form 2(t 0)(not(t 2)))(assert 0 3)(form 3(not(t 3))(not(t 0)))(assert 1 2)(res 0 3(not(t 2)))(res 2 4(not(t 0)))(res 1 5(t 3))))
== Yes 0 yes
(declare-const p Bool)(declare-const q Bool)(declare-const r Bool)(assert(not(=> p r q)))(assert(not p))(check-sat)(get-proof)(((p)(r)(q)(=> 0 1 2)(not 3)(not 0))((form 3(t 3)(t 0))(assert 0 4)(form 4(not(t 4))(not(t 3)))(assert 1 5)(form 5(not(t 5))(not(t 0)))(res 3 4(t 5))(res 0 5(t 0))(res 2 6(not(t 3)))(res 1 7(t 4))))
== Yes 0 yes
(declare-const q Bool)(define-fun dd((k Bool))Bool(not(= k k)))(assert(dd q))(check-sat)(get-proof)(((q)(= 0 0)(not 1))((form 1(t 1)(t 1))(assert 0 2)(form 2(not(t 2))(not(t 1)))(res 1 2(t 2))(res 0 3(t 1))))
== Yes 0 yes
(set-option :global-declarations true)(push 1)(declare-const p Bool)(declare-const q Bool)(assert false)(pop 1)(assert(distinct p q q))(check-sat)(get-proof)(((p)(q)(distinct 0 1 1))((form 2(not(t 2)))(assert 0 2)(res 0 1(not(t 2)))))
== Yes 0 yes
(declare-const p Bool)(declare-const q Bool)(declare-const r Bool)(define-fun dd((k Bool))Bool(not(ite p k r)))(assert(dd q))(assert p)(assert q)(check-sat)(get-proof)(((p)(q)(r)(ite 0 1 2)(not 3))((form 3(t 3)(not(t 0))(not(t 1)))(assert 0 4)(form 4(not(t 4))(not(t 3)))(assert 1 0)(assert 2 1)(res 0 4(not(t 1)))(res 3 5(t 0))(res 2 6(not(t 3)))(res 1 7(t 4))))
== Yes 0 yes
(assert(!(not true):named nn))(check-sat)(get-proof)(((true)(not 0))((form 0(t 0))(assert 0 1)(form 1(not(t 1))(not(t 0)))(res 1 2(t 1))(res 0 3(t 0))))
== Yes 0 yes
(set-option :global-declarations true)(push 1)(assert false)(pop 1)(assert false)(check-sat)(get-proof)(((false))((form 0(not(t 0)))(assert 0 0)(res 0 1(not(t 0)))))
== Yes 0 yes
(declare-sort U 0)(declare-const a U)(declare-const b U)(declare-const c U)(declare-const d U)(define-fun dd((k U))Bool(= a b c k))(assert(dd d))(assert(distinct a b))(check-sat)(get-proof)(((a)(b)(c)(d)(= 0 1 2 3)(distinct 0 1))((form 4(not(t 4))(s 0 1))(assert 0 4)(assert 1 5)(form 5(not(t 5))(not(s 0 1)))(res 2 3(t 5))(res 0 4(s 0 1))(res 1 5(t 4))))
== Yes 0 yes
(declare-const a Int)(declare-const c Int)(define-fun dd((k Int))Bool(distinct k c k))(assert(dd a))(assert(= c a))(check-sat)(get-proof)(((a)(c)(distinct 0 1 0)(= 1 0))((form 2(not(t 2))(not(s 1 0)))(assert 0 2)(assert 1 3)(form 3(not(t 3))(s 1 0))(res 2 3(t 3))(res 0 4(not(s 1 0)))(res 1 5(t 2))))
== Yes 0 yes
(set-logic QF_UFLIA)(declare-const x Int)(declare-const y Int)(get-proof 1)(assert(<= y(*(- 3)y)))(assert(not(>=(*(- 3)y)y)))(check-sat)(get-value(1))( get-proof;
)(((y)(3)(- 1)(* 2 0)(<= 0 3)(>= 3 0)(|not| 5)(170141183460469231731687303715884105727))((form 4(not(t 4))(le((1 0))0))(assert 0 4)(assert 1 6)(form 6(not(t 6))(not(t 5)))(form 5(t 5)(not(le((1 0))0)))(res 3 4(not(t 5)))(res 2 5(t 6))(res 0 6(le((1 0))0))(refl 1)(res 1 7(t 4)))))
== Yes 0 yes
(declare-const x Int)(declare-const y Int)(assert(let((k(<(+ y 5)3)))k))(assert(not(> 3(+ y 5))))(check-sat)(get-proof)(((y)(5)(+ 0 1)(3)(< 2 3)(> 3 2)(not 5))((form 4(not(t 4))(le((1 0))(- 3)))(assert 0 4)(assert 1 6)(form 6(not(t 6))(not(t 5)))(form 5(t 5)(not(le((1 0))(- 3))))(res 3 4(not(t 5)))(res 2 5(t 6))(res 0 6(le((1 0))(- 3)))(res 1 7(t 4))))
== Yes 0 yes
(declare-const x Int)(declare-const y Int)(declare-const z Int)(assert(not(>= z(*(- 2)y))))(assert(<=(*(- 2)y)z))(check-sat)(get-proof)(((z)(2)(- 1)(y)(* 2 3)(>= 0 4)(not 5)(<= 4 0))((form 5(t 5)(not(le(((- 1)0)((- 2)3))0)))(assert 0 6)(form 6(not(t 6))(not(t 5)))(assert 1 7)(form 7(not(t 7))(le(((- 1)0)((- 2)3))0))(res 3 4(t 7))(res 0 5(not(le(((- 1)0)((- 2)3))0)))(res 2 6(not(t 5)))(res 1 7(t 6))))
== Yes 0 yes
(declare-const x Int)(declare-const y Int)(declare-const z Int)(assert(!(> y x):named nn))(assert(not(< x y)))(check-sat)(get-proof)(((y)(x)(> 0 1)(< 1 0)(not 3))((form 2(not(t 2))(le(((- 1)0)(1 1))(- 1)))(assert 0 2)(assert 1 4)(form 4(not(t 4))(not(t 3)))(form 3(t 3)(not(le(((- 1)0)(1 1))(- 1))))(res 3 4(not(t 3)))(res 2 5(t 4))(res 0 6(le(((- 1)0)(1 1))(- 1)))(res 1 7(t 2))))
== Yes 0 yes
(set-option :global-declarations true)(push 1)(declare-const x Int)(declare-const y Int)(assert false)(pop 1)(assert(= x 2))(assert(not(<= x 2)))(check-sat)(get-proof)(((x)(2)(= 0 1)(<= 0 1)(not 3))((link 0 1 0)(assert 0 2)(form 2(not(t 2))(s 0 1))(assert 1 4)(form 4(not(t 4))(not(t 3)))(form 3(t 3)(not(le((1 0))2)))(res 4 5(not(t 3)))(res 3 6(t 4))(res 0 7(le((1 0))2))(res 2 8(s 0 1))(res 1 9(t 2))))
== Yes 0 yes
(declare-const x Int)(declare-const y Int)(assert(=(* 3 x)5))(assert(not(<= 5(* 3 x))))(minimize y)(get-proof)(((x)(3)(* 1 0)(5)(= 2 3)(<= 3 2)(not 5))((link 2 3 1)(assert 0 4)(form 4(not(t 4))(s 2 3))(round(le(((- 3)0))(- 5))3)(assert 1 6)(form 6(not(t 6))(not(t 5)))(form 5(t 5)(not(le(((- 1)0))(- 2))))(res 5 6(not(t 5)))(res 4 7(t 6))(res 3 8(le(((- 1)0))(- 2)))(res 0 9(le(((- 3)0))(- 5)))(res 2 10(s 2 3))(res 1 11(t 4))))
== Yes 0 yes
(declare-const x Int)(declare-const y Int)(assert(<= 9(* 3 x)))(check-sat-assuming((<=(* 3 x)9)(not(= 9(* 3 x)))))(get-proof)(((x)(9)(3)(* 2 0)(<= 1 3)(<= 3 1)(= 1 3)(not 6))((link 1 3 2)(assert 0 4)(form 4(not(t 4))(le(((- 1)0))(- 3)))(farkas(3(not(le(((- 1)0))(- 3))))(1(le(((- 3)0))(- 9))))(assert 1 5)(form 5(not(t 5))(le((1 0))3))(farkas(3(not(le((1 0))3)))(1(le((3 0))9)))(assert 2 7)(form 7(not(t 7))(not(t 6)))(form 6(t 6)(not(s 1 3)))(res 8 9(not(t 6)))(res 7 10(t 7))(res 0 11(s 1 3))(res 6 12(le((3 0))9))(res 5 13(le((1 0))3))(res 4 14(t 5))(res 3 15(le(((- 3)0))(- 9)))(res 2 16(le(((- 1)0))(- 3)))(res 1 17(t 4))))
== Yes 0 yes
(set-option :global-declarations true)(push 1)(declare-const p Bool)(declare-const q Bool)(declare-fun f(Bool)Int)(assert false)(pop 1)(assert p)(assert(not(=(f p)(f true))))(check-sat)(get-proof)(((p)(true)(f 0)(f 1)(= 2 3)(not 4))((assert 0 0)(form 1(t 1))(both 0 1)(cong 2 3)(assert 1 5)(form 5(not(t 5))(not(t 4)))(form 4(t 4)(not(s 2 3))(not(s 2 3)))(res 5 6(not(t 4)))(res 4 7(t 5))(res 3 8(s 2 3))(res 2 9(s 0 1))(res 1 10(t 1))(res 0 11(t 0))))
== Yes 0 yes
(declare-const p Bool)(declare-const q Bool)(declare-sort U 0)(declare-fun f(Bool)U)(assert(not p))(assert(not(=(f p)(f false))))(check-sat)(get-proof)(((p)(not 0)(false)(f 0)(f 2)(= 3 4)(not 5))((assert 0 1)(form 1(not(t 1))(not(t 0)))(form 2(not(t 2)))(none 0 2)(cong 3 4)(assert 1 6)(form 6(not(t 6))(not(t 5)))(form 5(t 5)(not(s 3 4)))(res 6 7(not(t 5)))(res 5 8(t 6))(res 4 9(s 3 4))(res 3 10(s 0 2))(res 2 11(not(t 2)))(res 1 12(not(t 0)))(res 0 13(t 1))))
== Yes 0 yes
(declare-sort U 0)(declare-const a U)(declare-const b U)(declare-const p Bool)(check-sat-assuming(p(distinct(ite p a b)a)))(get-proof)(((p)(a)(b)(ite 0 1 2)(distinct 3 1))((pick 3 0)(assert 0 0)(assert 1 4)(form 4(not(t 4))(not(s 3 1)))(res 2 3(t 4))(res 0 4(s 3 1))(res 1 5(t 0))))
== Yes 0 yes
(set-option :global-declarations true)(push 1)(declare-const a Int)(declare-const b Int)(declare-const c Int)(assert false)(pop 1)(assert(= b a))(assert(= b c))(assert(distinct a c))(check-sat)(get-proof)(((b)(a)(= 0 1)(c)(= 0 3)(|distinct| 1 3))((assert 0 2)(form 2(not(t 2))(s 0 1))(sym 0 1)(assert 1 4)(form 4(not(t 4))(s 0 3))(trans 1 0 3)(assert 2 5)(form 5(not(t 5))(not(s 1 3)))(res 6 7(t 5))(res 5 8(s 1 3))(res 4 9(s 0 3))(res 3 10(t 4))(res 2 11(s 1 0))(res 1 12(s 0 1))(res 0 13(t 2))))
== Yes 0 yes
(declare-const a Int)(declare-const b Int)(declare-fun f(Int)Int)(assert(= a b))(assert(not(=(f(f a))(f(f b)))))(check-sat)(get-proof)(((a)(b)(= 0 1)(f 0)(f 1)(f 3)(f 4)(= 5 6)(not 7))((assert 0 2)(form 2(not(t 2))(s 0 1))(cong 3 4)(cong 5 6)(assert 1 8)(form 8(not(t 8))(not(t 7)))(form 7(t 7)(not(s 5 6)))(res 5 6(not(t 7)))(res 4 7(t 8))(res 3 8(s 5 6))(res 2 9(s 3 4))(res 1 10(s 0 1))(res 0 11(t 2))))
== Yes 0 yes
(set-option :global-declarations true)(push 1)(declare-sort U 0)(declare-const a U)(declare-const b U)(declare-fun g(U)Bool)(assert false)(pop 1)(assert(= a b))(assert(g a))(assert(not(g b)))(check-sat)(get-proof)(((a)(b)(= 0 1)(g 0)(g 1)(not 4))((assert 0 2)(form 2(not(t 2))(s 0 1))(cong 3 4)(truth 3 4)(assert 1 3)(assert 2 5)(form 5(not(t 5))(not(t 4)))(res 5 6(t 5))(res 3 7(t 4))(res 4 8(t 3))(res 2 9(s 3 4))(res 1 10(s 0 1))(res 0 11(t 2))))
== Yes 0 yes
(set-option :global-declarations true)(push 1)(declare-const x Int)(declare-const y Int)(assert false)(pop 1)(assert(=(+(* 3 y)2)(* 3 x)))(check-sat)(get-proof)(((3)(y)(* 0 1)(2)(+ 2 3)(x)(* 0 5)(= 4 6))((assert 0 7)(form 7(not(t 7))(s 4 6))(link 4 6 0)(link 4 6 1)(round(le((3 1)((- 3)5))(- 2))3)(round(le(((- 3)1)(3 5))2)3)(farkas(1(not(le((1 1)((- 1)5))(- 1))))(1(not(le(((- 1)1)(1 5))0))))(res 5 6(le(((- 1)1)(1 5))0))(res 4 7(le((1 1)((- 1)5))(- 1)))(res 3 8(le(((- 3)1)(3 5))2))(res 2 9(le((3 1)((- 3)5))(- 2)))(res 1 10(s 4 6))(res 0 11(t 7))))
== Yes 0 yes
(declare-const x Int)(declare-const y Int)(push 1)(assert false)(pop 1)(push 2)(assert(<=(+(* 4 y)(* 4 x))1))(assert(<=(+(*(- 4)y)(*(- 4)x))(- 1)))(check-sat)(get-proof)(((y)(x)(4)(* 2 0)(* 2 1)(+ 3 4)(1)(<= 5 6)(- 2)(* 8 0)(* 8 1)(+ 9 10)(- 6)(<= 11 12))((assert 0 7)(form 7(not(t 7))(le((1 0)(1 1))0))(assert 1 13)(form 13(not(t 13))(le(((- 1)0)((- 1)1))(- 1)))(farkas(4(not(le((1 0)(1 1))0)))(4(not(le(((- 1)0)((- 1)1))(- 1)))))(res 3 4(le(((- 1)0)((- 1)1))(- 1)))(res 2 5(t 13))(res 1 6(le((1 0)(1 1))0))(res 0 7(t 7))))
== Yes 0 yes
(declare-const x Int)(assert(<=(* 8 x)6))(assert(<=(*(- 2)x)(!(- 1):named nn)))(check-sat)(get-proof)(((x)(8)(* 1 0)(6)(<= 2 3)(2)(- 5)(* 6 0)(1)(- 8)(<= 7 9))((assert 0 4)(form 4(not(t 4))(le((1 0))0))(assert 1 10)(form 10(not(t 10))(le(((- 1)0))(- 1))(le(((- 1)0))(- 1)))(farkas((/ 2 7)(not(le(((- 1)0))(- 1))))((/ 2 7)(not(le((1 0))0))))(res 3 4(le(((- 1)0))(- 1)))(res 2 5(t 10))(res 1 6(le((1 0))0))(res 0 7(t 4))))
== Yes 0 yes
(declare-const p Bool)(declare-const q Bool)(declare-const r Bool)(assert(or(not q)r))(assert(not r))(assert(or p q))(assert(or(not p)r))(check-sat)(get-proof)(((q)(not 0)(r)(or 1 2)(not 2)(p)(or 5 0)(not 5)(or 7 2))((assert 0 3)(form 3(not(t 3))(t 1)(t 2))(form 1(not(t 1))(not(t 0)))(assert 1 4)(form 4(not(t 4))(not(t 2)))(assert 2 6)(form 6(not(t 6))(t 5)(t 0))(assert 3 8)(form 8(not(t 8))(t 7)(t 2))(form 7(not(t 7))(not(t 5)))(res 8 9(t 7))(res 7 10(t 8))(res 6 11(t 5))(res 5 12(t 6))(res 2 13(not(t 0)))(res 1 14(t 1))(res 4 15(not(t 2)))(res 3 16(t 4))(res 0 17(t 3))))
== Yes 0 yes
(declare-const p Bool)(declare-const q Bool)(assert(=> p q))(assert p)(assert(xor p q))(check-sat)(|get-proof|)
(((|p|)(q)(=> 0 1)(xor 0 1))((assert 0 2)(form 2(not(t 2))(not(t 0))(t 1))(assert 1 0)(assert 2 3)(form 3(not(t 3))(not(t 0))(not(t 1)))(res 3 4(t 3))(res 1 5(t 1))(res 2 6(t 0))(res 0 7(t 2))))
== Yes 0 yes
(declare-const x Int)(declare-const y Int)(declare-fun f(Int)Int)(assert(<= x y))(assert(<= y x))(assert(not(=(f x)(f y))))(check-sat)(get-proof)(((x)(y)(<= 0 1)(<= 1 0)(f 0)(f 1)(= 4 5)(not 6))((assert 0 2)(form 2(not(t 2))(le((1 0)((- 1)1))0))(assert 1 3)(form 3(not(t 3))(le(((- 1)0)(1 1))0))(link 0 1 2)(cong 4 5)(assert 2 7)(form 7(not(t 7))(not(t 6)))(form 6(t 6)(not(s 4 5)))(res 7 8(not(t 6)))(res 6 9(t 7))(res 5 10(s 4 5))(res 4 11(s 0 1))(res 3 12(le(((- 1)0)(1 1))0))(res 2 13(t 3))(res 1 14(le((1 0)((- 1)1))0))(res 0 15(t 2))))
== Yes 0 yes
(declare-sort U 0)(declare-const c0 U)(declare-const c1 U)(declare-const c2 U)(declare-const c3 U)(declare-const c4 U)(declare-const c5 U)(declare-const c6 U)(define-fun dd((k U))Bool(distinct c0 c1 c2 c3 c4 k c6))(assert(dd c5))(assert(= c3 c6))(check-sat)(|get-proof|)
(((|c0|)(c1)(c2)(c3)(c4)(c5)(c6)(distinct 0 1 2 3 4 5 6)(= 3 6)(not 7))((form 7(not(t 7))(not(s 3 6)))(assert 0 7)(assert 1 8)(form 8(not(t 8))(s 3 6))(res 2 3(t 8))(res 0 4(not(s 3 6)))(refl 8)(res 1 5(t 7))))\x7f
== Yes 0 yes
(check-sat-assuming((< 170141183460469231731687303715884105727 170141183460469231731687303715884105727)))(get-proof)(((170141183460469231731687303715884105727)(< 0 0)(not 1))((assert 0 1)(form 1(not(t 1))(le()(- 1)))(farkas((/ 1 170141183460469231731687303715884105727)(not(le()(- 1)))))(res 1 2(le()(- 1)))(refl 2)(res 0 3(t 1))))
== Yes 0 yes
(declare-const x Int)(declare-const y Int)(push 1)(assert(>=(div x(- 5))0))(push 1)(assert(>= x 5))(push 1)(assert false)(pop 1)(check-sat)(get-proof)(((x)(5)(|-| 1)(div 0 2)(0)(>= 3 4)(>= 0 1))((euclid 3 1)(assert 0 5)(form 5(not(t 5))(le(((- 1)3))0))(assert 1 6)(form 6(not(t 6))(le(((- 1)0))(- 5)))(farkas(1(not(le((1 0)(5 3))4)))(5(not(le(((- 1)3))0)))(1(not(le(((- 1)0))(- 5)))))(res 4 5(le(((- 1)0))(- 5)))(res 3 6(t 6))(res 2 7(le(((- 1)3))0))(res 1 8(t 5))(res 0 9(le((1 0)(5 3))4))))
== Yes 0 yes
(declare-const x Int)(assert(>=(- 2)(div x 2 4)))(assert(<=(- 8)x))(check-sat)(minimize x)(get-proof)(((x)(2)(div 0 1)(4)(div 0 1 3)(- 1)(>= 5 4)(8)(- 7)(<= 8 0)(= 0 0))((euclid 2 1)(euclid 4 1)(assert 0 6)(form 6(not(t 6))(le((1 4))(- 2))(le((1 4))(- 2)))(assert 1 9)(form 9(not(t 9))(le(((- 1)0))8))(farkas(1(not(le((1 0)((- 2)2))1)))(2(not(le((1 2)((- 4)4))3)))(8(not(le((1 4))(- 2))))(1(not(le(((- 1)0))8))))(res 5 6(le(((- 1)0))8))(res 4 7(t 9))(res 3 8(le((1 4))(- 2)))(res 2 9(t 6))(res 1 10(le((1 2)((- 4)4))3))(assert 2 10)(res 0 11(le((1 0)((- 2)2))1))))
== Yes 0 yes
(set-option :global-declarations true)(push 1)(declare-const x Int)(assert false)(pop 1)(assert(>=(mod x 2)2))(check-sat)(|get-proof|)
(((x)(2)(|div| 0 1)(mod 0 1)(>= 3 1))((euclid 3 1)(euclid 3 2)(assert 0 4)(form 4(not(t 4))(le(((- 1)3))(- 2)))(farkas(1(not(le((1 0)((- 2)2))1)))(1(not(le(((- 1)0)(2 2)(1 3))0)))(1(not(le(((- 1)3))(- 2)))))(res 3 4(le(((- 1)3))(- 2)))(res 2 5(t 4))(res 1 6(le(((- 1)0)(2 2)(1 3))0))(res 0 7(le((1 0)((- 2)2))1)))))
== Yes 0 yes
(declare-const x Int)(assert(!(not((_ divisible 4)x)):named nn))(assert(<=(- 8)x))(assert(>=(- 8)x))(check-sat)(get-proof)(((x)((_ divisible 4)0)(not 1)(8)(- 3)(<= 4 0)(>= 4 0)(4)(div 0 7))((assert 0 2)(form 2(not(t 2))(not(t 1)))(assert 1 5)(form 5(not(t 5))(le(((- 1)0))8))(assert 2 6)(form 6(not(t 6))(le((1 0))(- 8)))(euclid 1 1)(euclid 1 2)(farkas(1(not(le((4 8)((- 1)0))(- 1))))(1(not(le((1 0))(- 8))))(4(le((1 8))(- 3))))(farkas(1(not(le(((- 4)8)(1 0))3)))(1(not(le(((- 1)0))8)))(4(not(le((1 8))(- 3)))))(res 8 9(le((1 8))(- 3)))(res 7 10(le((4 8)((- 1)0))(- 1)))(res 6 11(le(((- 4)8)(1 0))3))(res 5 12(le((1 0))(- 8)))(res 4 13(t 6))(res 3 14(le(((- 1)0))8))(res 2 15(t 5))(res 1 16(not(t 1)))(res 0 17(t 2))))
== Yes 0 yes
(set-option :global-declarations true)(push 1)(declare-const x Int)(assert false)(pop 1)(assert(> x(abs x)))(check-sat)(get-proof)(((x)(abs 0)(> 0 1))((euclid 1 0)(assert 0 2)(form 2(not(t 2))(le(((- 1)0)(1 1))(- 1)))(farkas(1(not(le((1 0)((- 1)1))0)))(1(not(le(((- 1)0)(1 1))(- 1)))))(res 2 3(le(((- 1)0)(1 1))(- 1)))(res 1 4(t 2))(res 0 5(le((1 0)((- 1)1))0))))
== Yes 0 yes
(declare-const x Int)(declare-const y Int)(assert(= x y))(assert((_ divisible 5)x))(assert(not((_ divisible 5)y)))(check-sat)(minimize x)(get-proof)(((x)(y)(= 0 1)((_ divisible 5)0)((_ divisible 5)1)(not 4))((assert 0 2)(form 2(not(t 2))(s 0 1))(cong 3 4)(truth 3 4)(assert 1 3)(assert 2 5)(form 5(not(t 5))(not(t 4)))(res 5 6(t 5))(res 3 7(t 4))(res 4 8(t 3))(res 2 9(s 3 4))(res 1 10(s 0 1))(res 0 11(t 2))))
== Yes 0 yes
(declare-const p Bool)(assert(not p))(check-sat-assuming((not(not p))))(get-proof)(((p)(not 0)(not 1))((form 2(not(t 1))(not(t 2)))(assert 0 1)(assert 1 2)(res 0 2(not(t 2)))(res 1 3(t 1))))
== Yes 0 yes
(declare-const p Bool)(assert(!(not(and p p)):named nn))(assert p)(check-sat)(get-proof)(((p)(and 0 0)(not 1))((form 1(t 1)(not(t 0)))(assert 0 2)(form 2(not(t 2))(not(t 1)))(assert 1 0)(res 0 3(not(t 0)))(res 2 4(not(t 1)))(res 1 5(t 2))))
== Yes 0 yes
(set-option :global-declarations true)(push 1)(declare-const r Bool)(declare-const s Bool)(assert false)(pop 1)(assert(or s s s r))(assert(not r))(assert(not s))(check-sat)( get-proof;
)(((s)(|r|)(or 0 0 0 1)(not 1)(not 0))((form 2(not(t 2))(t 1)(t 0))(assert 0 2)(assert 1 3)(form 3(not(t 3))(not(t 1)))(assert 2 4)(form 4(not(t 4))(not(t 0)))(res 4 5(t 4))(res 0 6(t 0))(res 3 7(not(t 1)))(res 2 8(t 3))(res 1 9(t 2))))(get-proof)
== Yes 0 yes
(declare-const q Bool)(assert(not q))(assert(let((k(not q)))(xor k q)))(assert(not(not q)))(check-sat)(get-proof)(((q)(not 0)(xor 1 0)(not 1))((assert 0 1)(assert 2 3)(form 3(not(t 3))(not(t 1)))(res 1 2(t 3))(res 0 3(t 1))))
== Yes 0 yes
(declare-const p Bool)(declare-const q Bool)(assert(let((k p))k))(assert(=> p q))(assert(not q))(check-sat)(get-proof)(((p)(q)(=> 0 1)(not 1))((form 2(not(t 0))(not(t 2))(t 1))(assert 0 0)(assert 1 2)(assert 2 3)(form 3(not(t 3))(not(t 1)))(res 3 4(t 3))(res 0 5(t 1))(res 2 6(t 2))(res 1 7(t 0))))
== Yes 0 yes
(declare-const p Bool)(declare-const q Bool)(assert p)(assert q)(assert(not(= p q p)))(check-sat)(get-proof)(((p)(q)(= 0 1 0)(not 2)(false))((form 2(not(t 0))(not(t 1))(t 2))(assert 0 0)(assert 1 1)(assert 2 3)(form 3(not(t 3))(not(t 2)))(res 3 4(t 3))(res 0 5(t 2))(res 2 6(t 1))(refl 0)(res 1 7(t 0))))
== Yes 0 yes
(declare-const p Bool)(declare-const q Bool)(assert(let((k p))(distinct q k k q)))(check-sat)(get-proof)(((q)(p)(distinct 0 1 1 0))((form 2(not(t 2)))(assert 0 2)(res 0 1(not(t 2)))))
== Yes 0 yes
(push 3)(reset)(declare-const q Bool)(pop 1)(assert(not(ite q q q)))(assert q)(check-sat)(assert)(get-proof)(((q)(ite 0 0 0)(not 1))((form 1(t 1)(not(t 0)))(assert 0 2)(form 2(not(t 2))(not(t 1)))(assert 1 0)(res 0 3(not(t 0)))(res 2 4(not(t 1)))(res 1 5(t 2))))
== Yes 0 yes
(assert(not true))(check-sat)(get-proof)(((true)(not 0))((form 0(t 0))(assert 0 1)(form 1(not(t 1))(not(t 0)))(res 1 2(t 1))(res 0 3(t 0))))
== Yes 0 yes
(check-sat-assuming(false))(get-proof)(((false))((form 0(not(t 0))(not(t 0)))(assert 0 0)(res 0 1(not(t 0)))))
== Yes 0 yes
(declare-const a Int)(declare-const b Int)(assert(let((k a))(= k b)))(assert(distinct a b))(check-sat)(get-proof)(((a)(b)(= 0 1)(distinct 0 1))((form 2(not(t 2))(s 0 1))(assert 0 2)(assert 1 3)(form 3(not(t 3))(not(s 0 1)))(res 2 3(t 3))(res 0 4(s 0 1))(res 1 5(t 2))))
== Yes 0 yes
(declare-sort U 0)(declare-const a U)(declare-const b U)(declare-const c U)(declare-const d U)(push 2)(push 1)(assert false)(pop 1)(push 1)(assert(distinct a b c d))(assert(= b d))(check-sat)(get-proof)(((a)(b)(c)(d)(distinct 0 1 2 3)(= 1 3))((form 4(not(t 4))(not(s 1 3)))(assert 0 4)(assert 1 5)(form 5(not(t 5))(s 1 3))(res 2 3(t 5))(res 0 4(not(s 1 3)))(res 1 5(t 4))))
== Yes 0 yes
(declare-const x Int)(declare-const y Int)(declare-const z Int)(assert(<=(*(- 3)y)(+ z 6)))(assert(not(>=(+ z 6)(*(- 3)y))))(check-sat)(minimize z)(get-proof)(((3)(- 0)(y)(* 1 2)(z)(6)(+ 4 5)(<= 3 6)(>= 6 3)(not 8)(= 4 4))((form 7(not(t 7))(le(((- 3)2)((- 1)4))6))(assert 0 7)(assert 1 9)(form 9(not(t 9))(not(t 8)))(form 8(t 8)(not(le(((- 3)2)((- 1)4))6)))(res 3 4(not(t 8)))(res 2 5(t 9))(res 0 6(le(((- 3)2)((- 1)4))6))(assert 2 10)(res 1 7(t 7))))
== Yes 0 yes
(declare-const x Int)(declare-const y Int)(declare-const z Int)(assert(< z z x))(check-sat-assuming((not(> x z))))(get-proof)(((z)(x)(< 0 0 1)(> 1 0)(not 3))((form 2(not(t 2))(le((1 0)((- 1)1))(- 1)))(assert 0 2)(assert 1 4)(form 4(not(t 4))(not(t 3)))(form 3(t 3)(not(le((1 0)((- 1)1))(- 1))))(res 3 4(not(t 3)))(res 2 5(t 4))(res 0 6(le((1 0)((- 1)1))(- 1)))(res 1 7(t 2))))
== Yes 0 yes
(declare-const x Int)(declare-const y Int)(declare-const z Int)(assert(>= 8 y))(assert(not(<= y 8)))(minimize y)(get-proof)(((8)(y)(>= 0 1)(<= 1 0)(not 3)(= 1 1)(170141183460469231731687303715884105727))((form 2(not(t 2))(le((1 1))8))(assert 0 2)(assert 1 4)(form 4(not(t 4))(not(t 3)))(form 3(t 3)(not(le((1 1))8)))(res 3 4(not(t 3)))(res 2 5(t 4))(res 0 6(le((1 1))8))(assert 2 5)(refl 4)(res 1 7(t 2))))
== Yes 0 yes
(declare-const x Int)(declare-const y Int)(declare-const z Int)(assert(not(> 6 1)))(assert(let((k(< 1 6)))k))(check-sat)(get-proof)(((6)(1)(> 0 1)(not 2)(< 1 0)(7))((form 2(t 2)(not(le()4)))(assert 0 3)(form 3(not(t 3))(not(t 2)))(assert 1 4)(form 4(not(t 4))(le()4))(res 3 4(t 4))(res 0 5(not(le()4)))(res 2 6(not(t 2)))(refl 4)(res 1 7(t 3))))
== Yes 0 yes
(declare-const x Int)(declare-const y Int)(define-fun dd()Bool(not(<= y 3)))(assert(= y 3))(assert dd)(check-sat)(get-proof)(((y)(3)(= 0 1)(<= 0 1)(not 3))((link 0 1 0)(assert 0 2)(form 2(not(t 2))(s 0 1))(assert 1 4)(form 4(not(t 4))(not(t 3)))(form 3(t 3)(not(le((1 0))3)))(res 4 5(not(t 3)))(res 3 6(t 4))(res 0 7(le((1 0))3))(res 2 8(s 0 1))(res 1 9(t 2))))
== Yes 0 yes
(set-logic ALL)(declare-const x Int)(declare-const y Int)(pop 1)(assert(= x(* 3 x)))(assert(not(<=(* 3 x)x)))(check-sat)(declare-sort V 1)(get-proof)(((x)(3)(* 1 0)(= 0 2)(<= 2 0)(not 4))((link 0 2 1)(assert 0 3)(form 3(not(t 3))(s 0 2))(round(le((2 0))0)2)(assert 1 5)(form 5(not(t 5))(not(t 4)))(form 4(t 4)(not(le((1 0))0)))(res 5 6(not(t 4)))(res 4 7(t 5))(res 3 8(le((1 0))0))(res 0 9(le((2 0))0))(res 2 10(s 0 2))(res 1 11(t 3))))
== Yes 0 yes
(declare-const x Int)(declare-const y Int)(assert(<= 2 x))(assert(!(<= x 2):named nn))(assert(not(= 2 x)))(check-sat)(get-proof)(((x)(2)(<= 1 0)(<= 0 1)(= 1 0)(not 4))((link 1 0 2)(assert 0 2)(form 2(not(t 2))(le(((- 1)0))(- 2)))(assert 1 3)(form 3(not(t 3))(le((1 0))2))(assert 2 5)(form 5(not(t 5))(not(t 4)))(form 4(t 4)(not(s 1 0)))(res 6 7(not(t 4)))(res 5 8(t 5))(res 0 9(s 1 0))(res 4 10(le((1 0))2))(res 3 11(t 3))(res 2 12(le(((- 1)0))(- 2)))(res 1 13(t 2))))
== Yes 0 yes
(declare-const p Bool)(declare-const q Bool)(declare-fun f(Bool)Int)(assert p)(assert(not(=(f p)(f true))))(check-sat)(get-proof)(((p)(true)(f 0)(f 1)(= 2 3)(not 4))((assert 0 0)(form 1(t 1))(both 0 1)(cong 2 3)(assert 1 5)(form 5(not(t 5))(not(t 4)))(form 4(t 4)(not(s 2 3)))(res 5 6(not(t 4)))(res 4 7(t 5))(res 3 8(s 2 3))(res 2 9(s 0 1))(res 1 10(t 1))(res 0 11(t 0))))
== Yes 0 yes
(declare-const p Bool)(declare-const q Bool)(declare-fun f(Bool)Int)(assert(not p))(assert(not(=(f p)(f false))))(check-sat)(get-proof)(((p)(not 0)(false)(f 0)(f 2)(= 3 4)(not 5))((assert 0 1)(form 1(not(t 1))(not(t 0)))(form 2(not(t 2)))(none 0 2)(cong 3 4)(assert 1 6)(form 6(not(t 6))(not(t 5)))(form 5(t 5)(not(s 3 4)))(res 6 7(not(t 5)))(res 5 8(t 6))(res 4 9(s 3 4))(res 3 10(s 0 2))(res 2 11(not(t 2)))(res 1 12(not(t 0)))(res 0 13(t 1))))
== Yes 0 yes
(set-option :global-declarations true)(push 1)(declare-sort U 0)(declare-const a U)(declare-const b U)(declare-const p Bool)(assert false)(pop 1)(assert(not(not p)))(assert(not(=(ite(not p)a b)b)))(check-sat)(get-proof)(((p)(not 0)(a)(b)(ite 1 2 3)(not 1)(= 4 3)(not 6))((pick 4 1)(assert 0 5)(form 5(not(t 5))(not(t 1)))(assert 1 7)(form 7(not(t 7))(not(t 6)))(form 6(t 6)(not(s 4 3)))(res 4 5(not(t 6)))(res 3 6(t 7))(res 0 7(s 4 3))(res 2 8(not(t 1)))(res 1 9(t 5))))
== Yes 0 yes
(set-option :global-declarations true)(push 1)(declare-sort U 0)(declare-const a U)(declare-const b U)(declare-const c U)(declare-const d U)(assert false)(pop 1)(assert(= b a))(assert(= b c))(assert(= c d))(assert(distinct a d))(check-sat)(get-proof)(((b)(a)(= 0 1)(c)(= 0 3)(d)(= 3 5)(distinct 1 5))((assert 0 2)(form 2(not(t 2))(s 0 1))(sym 0 1)(assert 1 4)(form 4(not(t 4))(s 0 3))(assert 2 6)(form 6(not(t 6))(s 3 5))(trans 1 0 3)(trans 1 3 5)(assert 3 7)(form 7(not(t 7))(not(s 1 5)))(res 9 10(t 7))(res 8 11(s 1 5))(res 7 12(s 1 3))(res 6 13(s 3 5))(res 5 14(t 6))(res 4 15(s 0 3))(res 3 16(t 4))(res 2 17(s 1 0))(res 1 18(s 0 1))(res 0 19(t 2))))
== Yes 0 yes
(declare-const a Int)(declare-const b Int)(check-sat-assuming((= a b)(not(=(+ a b)(+ b b)))))(get-proof)(((a)(b)(= 0 1)(+ 0 1)(+ 1 1)(= 3 4)(not 5))((assert 0 2)(form 2(not(t 2))(s 0 1))(refl 1)(cong 3 4)(assert 1 6)(form 6(not(t 6))(not(t 5)))(form 5(t 5)(not(s 3 4)))(res 5 6(not(t 5)))(res 4 7(t 6))(res 3 8(s 3 4))(res 2 9(s 1 1))(res 1 10(s 0 1))(res 0 11(t 2))))
== Yes 0 yes
(declare-sort U 0)(declare-const a U)(declare-const b U)(declare-fun g(U)Bool)(assert(= a b))(assert(let((k b))(g k)))(assert(not(g a)))(check-sat)(get-proof)(((a)(b)(= 0 1)(g 0)(g 1)(not 3))((assert 0 2)(form 2(not(t 2))(s 0 1))(cong 3 4)(sym 3 4)(truth 4 3)(assert 1 4)(assert 2 5)(form 5(not(t 5))(not(t 3)))(res 6 7(t 5))(res 4 8(t 3))(res 5 9(t 4))(res 3 10(s 4 3))(res 2 11(s 3 4))(res 1 12(s 0 1))(res 0 13(t 2))))
== Yes 0 yes
(declare-const x Int)(declare-const y Int)(assert(=(!(* 3 x):named nn)(+(* 3 y)2)))(check-sat)(get-proof)(((3)(x)(* 0 1)(y)(* 0 3)(2)(|+| 4 5)(= 2 6))((assert 0 7)(form 7(not(t 7))(s 2 6))(link 2 6 0)(link 2 6 1)(round(le((3 1)((- 3)3))2)3)(round(le(((- 3)1)(3 3))(- 2))3)(farkas(1(not(le((1 1)((- 1)3))0)))(1(not(le(((- 1)1)(1 3))(- 1)))))(res 5 6(le(((- 1)1)(1 3))(- 1)))(res 4 7(le((1 1)((- 1)3))0))(res 3 8(le(((- 3)1)(3 3))(- 2)))(res 2 9(le((3 1)((- 3)3))2))(res 1 10(s 2 6))(res 0 11(t 7))))
; end
== Yes 0 yes
(set-option :global-declarations true)(push 1)(declare-const x Int)(declare-const y Int)(declare-const z Int)(assert false)(pop 1)(assert(<=(+(*(- 3)z)(* 5 y))(- 1)))(assert(>=(- 2)(+(* 3 z)(*(- 5)y))))(check-sat)(get-proof)(((z)(y)(3)(- 2)(* 3 0)(5)(* 5 1)(+ 4 6)(1)(- 8)(<= 7 9)(2)(- 11)(* 2 0)(- 5)(* 14 1)(+ 13 15)(>= 12 16))((assert 0 10)(form 10(not(t 10))(le(((- 3)0)(5 1))(- 1)))(assert 1 17)(form 17(not(t 17))(le((3 0)((- 5)1))(- 2)))(farkas(1(not(le((3 0)((- 5)1))(- 2))))(1(not(le(((- 3)0)(5 1))(- 1)))))(res 3 4(le((3 0)((- 5)1))(- 2)))(res 2 5(t 17))(res 1 6(le(((- 3)0)(5 1))(- 1)))(res 0 7(t 10))))
== Yes 0 yes
(declare-const x Int)(declare-const y Int)(assert(>= 2(- x)))(assert(<=(!(* 2 x):named nn)(- 6)))(check-sat)(get-proof)(((x)(2)(- 0)(>= 1 2)(* 1 0)(6)(- 5)(<= 4 6))((assert 0 3)(form 3(not(t 3))(le(((- 1)0))2))(assert 1 7)(form 7(not(t 7))(le((1 0))(- 3)))(farkas((/ 2 2)(not(le(((- 1)0))2)))(1(not(le((1 0))(- 3)))))(res 3 4(le((1 0))(- 3)))(res 2 5(t 7))(res 1 6(le(((- 1)0))2))(res 0 7(t 3))))
== Yes 0 yes
(declare-const p Bool)(declare-const q Bool)(assert(or p q))(assert(let((k(not q)))(or p k)))(assert(or(not p)(not q)))(assert(or(not p)q))(check-sat)(get-proof)(((p)(q)(or 0 1)(not 1)(or 0 3)(not 0)(or 5 3)(or 5 1))((assert 0 2)(form 2(not(t 2))(t 0)(t 1))(assert 1 4)(form 4(not(t 4))(t 0)(t 3))(form 3(not(t 3))(not(t 1)))(assert 2 6)(form 6(not(t 6))(t 5)(t 3))(form 5(not(t 5))(not(t 0)))(assert 3 7)(form 7(not(t 7))(t 5)(t 1))(res 4 9(not(t 1)))(res 6 10(t 3))(res 7 11(not(t 5)))(res 3 4(t 3))(res 1 13(t 1))(res 14 12(t 0))(res 8 15(t 7))(res 5 16(t 6))(res 2 17(t 4))(res 0 18(t 2))))
== Yes 0 yes
(declare-const p Bool)(declare-const q Bool)(assert(and p q))(assert(= p q))(push 1)(push 1)(assert false)(pop 1)(push 1)(assert(xor p q))(check-sat)(get-proof)(((p)(q)(and 0 1)(= 0 1)(xor 0 1))((assert 0 2)(form 2(not(t 2))(t 0)(t 1))(form 2(not(t 2))(t 0)(not(t 1)))(form 2(not(t 2))(not(t 0))(t 1))(assert 2 4)(form 4(not(t 4))(not(t 0))(not(t 1)))(res 3 5(t 1))(res 1 2(t 1))(res 7 6(t 0))(res 4 8(t 4))(res 0 9(t 2))))
== Yes 0 yes
(declare-const x Int)(declare-const y Int)(declare-fun h(Int)Bool)(assert(<= x(+ y 1)))(assert(<=(+ y 1)x))(assert(h x))(assert(not(h(+ y 1))))(check-sat)( get-proof;
)(((x)(y)(1)(+ 1 2)(|<=| 0 3)(<= 3 0)(h 0)(h 3)(not 7))((assert 0 4)(form 4(not(t 4))(le((1 0)((- 1)1))1))(assert 1 5)(form 5(not(t 5))(le(((- 1)0)(1 1))(- 1)))(link 0 3 2)(cong 6 7)(truth 6 7)(assert 2 6)(assert 3 8)(form 8(not(t 8))(not(t 7)))(res 8 9(t 8))(res 6 10(t 7))(res 7 11(t 6))(res 5 12(s 6 7))(res 4 13(s 0 3))(res 3 14(le(((- 1)0)(1 1))(- 1)))(res 2 15(t 5))(res 1 16(le((1 0)((- 1)1))1))(res 0 17(t 4))))
== Yes 0 yes
(declare-const p Bool)(declare-const q Bool)(declare-const r Bool)(declare-const s Bool)(declare-const u Bool)(declare-const v Bool)(declare-const w Bool)(assert(let((k q))(not(or p k r s u v w))))(assert s)(check-sat)(get-proof)(((p)(q)(r)(s)(u)(v)(w)(or 0 1 2 3 4 5 6)(not 7))((form 7(t 7)(not(t 3)))(assert 0 8)(form 8(not(t 8))(not(t 7)))(assert 1 3)(res 0 3(not(t 3)))(res 2 4(not(t 7)))(res 1 5(t 8))))
== Yes 0 yes
(declare-const x Int)(assert(=(!(* 85070591730234615865843651857942052864 x):named nn)1))(check-sat)(get-proof)(((85070591730234615865843651857942052864)(x)(* 0 1)(1)(= 2 3))((assert 0 4)(form 4(not(t 4))(s 2 3))(link 2 3 0)(link 2 3 1)(round(le((85070591730234615865843651857942052864 1))1)85070591730234615865843651857942052864)(round(le(((- 85070591730234615865843651857942052864)1))(- 1))85070591730234615865843651857942052864)(farkas(1(not(le((1 1))0)))(1(not(le(((- 1)1))(- 1)))))(res 5 6(le(((- 1)1))(- 1)))(res 4 7(le((1 1))0))(res 3 8(le(((- 85070591730234615865843651857942052864)1))(- 1)))(res 2 9(le((85070591730234615865843651857942052864 1))1))(res 1 10(s 2 3))(res 0 11(t 4))))
== Yes 0 yes
(set-option :global-declarations true)(push 1)(declare-const x Int)(declare-const y Int)(assert false)(pop 1)(assert(<= 4(div(+ x 4)(- 5))))(assert(<=(- 15)(+ x 4)))(check-sat)(get-proof)(((x)(4)(+ 0 1)(5)(- 3)(div 2 4)(<= 1 5)(15)(- 7)(<= 8 2))((euclid 5 1)(assert 0 6)(form 6(not(t 6))(le(((- 1)5))(- 4))(not(t 6)))(assert 1 9)(form 9(not(t 9))(le(((- 1)0))19))(farkas(1(not(le((1 0)(5 5))0)))(5(not(le(((- 1)5))(- 4))))(1(not(le(((- 1)0))19))))(res 4 5(le(((- 1)0))19))(res 3 6(t 9))(res 2 7(le(((- 1)5))(- 4)))(res 1 8(t 6))(res 0 9(le((1 0)(5 5))0))))
== Yes 0 yes
(declare-const x Int)(assert(>= 1(div x 5 3)))(assert(>= x 30))(push 2)(push 2)(push 1)(assert false)(pop 1)(check-sat)(get-proof)(((x)(5)(div 0 1)(3)(div 0 1 3)(1)(>= 5 4)(30)(>= 0 7)(7))((euclid 2 1)(euclid 4 1)(assert 0 6)(form 6(not(t 6))(le((1 4))1))(assert 1 8)(form 8(not(t 8))(le(((- 1)0))(- 30)))(farkas(1(not(le((1 0)((- 5)2))4)))(5(not(le((1 2)((- 3)4))2)))(15(not(le((1 4))1)))(1(not(le(((- 1)0))(- 30)))))(res 5 6(le(((- 1)0))(- 30)))(res 4 7(t 8))(res 3 8(le((1 4))1))(res 2 9(t 6))(res 1 10(le((1 2)((- 3)4))2))(refl 9)(res 0 11(le((1 0)((- 5)2))4))))
== Yes 0 yes
(declare-const x Int)(push 2)(assert(<= 3(mod x 2)))(push 1)(assert false)(pop 1)(check-sat)(get-proof)(((x)(2)(div 0 1)(mod 0 1)(3)(<= 4 3))((euclid 3 1)(euclid 3 2)(assert 0 5)(form 5(not(t 5))(le(((- 1)3))(- 3)))(farkas(1(not(le((1 0)((- 2)2))1)))(1(not(le(((- 1)0)(2 2)(1 3))0)))(1(not(le(((- 1)3))(- 3)))))(res 3 4(le(((- 1)3))(- 3)))(res 2 5(t 5))(res 1 6(le(((- 1)0)(2 2)(1 3))0))(res 0 7(le((1 0)((- 2)2))1))))
== Yes 0 yes
(declare-const x Int)(assert(not((_ divisible 4)x)))(assert(>= x 4))(assert(let((k x))(<= k 4)))(check-sat)(get-proof)(((x)((_ divisible 4)0)(not 1)(4)(>= 0 3)(<= 0 3)(div 0 3)(false))((assert 0 2)(form 2(not(t 2))(not(t 1)))(assert 1 4)(form 4(not(t 4))(le(((- 1)0))(- 4)))(assert 2 5)(form 5(not(t 5))(le((1 0))4))(euclid 1 1)(euclid 1 2)(farkas(1(not(le(((- 1)0)(4 6))(- 1))))(1(not(le((1 0))4)))(4(le((1 6))0)))(farkas(1(not(le((1 0)((- 4)6))3)))(1(not(le(((- 1)0))(- 4))))(4(not(le((1 6))0))))(res 8 9(le((1 6))0))(res 7 10(le(((- 1)0)(4 6))(- 1)))(res 6 11(le((1 0)((- 4)6))3))(res 5 12(le((1 0))4))(res 4 13(t 5))(res 3 14(le(((- 1)0))(- 4)))(res 2 15(t 4))(res 1 16(not(t 1)))(refl 4)(res 0 17(t 2))))
== Yes 0 yes
(declare-const x Int)(assert(>= 4 x))(assert(<=(- 4)x))(assert(< 4(abs x)))(minimize x)(get-proof)(((x)(abs 0)(4)(>= 2 0)(- 2)(<= 4 0)(< 2 1)(= 0 0))((euclid 1 2)(assert 0 3)(form 3(not(t 3))(le((1 0))4))(assert 1 5)(form 5(not(t 5))(le(((- 1)0))4))(assert 2 6)(form 6(not(t 6))(le(((- 1)1))(- 5)))(farkas(1(not(le(((- 1)0)(1 1))0)))(1(not(le((1 0))4)))(1(not(le(((- 1)1))(- 5)))))(farkas(1(not(le((1 0)(1 1))0)))(1(not(le(((- 1)0))4)))(1(not(le(((- 1)1))(- 5)))))(res 0 8(le((1 0)(1 1))0))(res 7 9(not(le(((- 1)0)(1 1))0)))(res 6 10(le(((- 1)1))(- 5)))(res 5 11(t 6))(res 4 12(le(((- 1)0))4))(res 3 13(t 5))(res 2 14(le((1 0))4))(assert 3 7)(res 1 15(t 3))))
== Yes 0 yes
(declare-const x Int)(declare-const y Int)(assert(= x y))(assert(not(=(!(div x 3):named nn)(div y 3))))(check-sat)(get-proof)(((x)(y)(= 0 1)(3)(div 0 3)(div 1 3)(= 4 5)(not 6))((assert 0 2)(form 2(not(t 2))(s 0 1))(refl 3)(cong 4 5)(assert 1 7)(form 7(not(t 7))(not(t 6)))(form 6(t 6)(not(s 4 5)))(res 5 6(not(t 6)))(res 4 7(t 7))(res 3 8(s 4 5))(res 2 9(s 3 3))(res 1 10(s 0 1))(res 0 11(t 2))))
== Yes 0 yes
(declare-const p Bool)(check-sat-assuming((not p)(not(not p))))(get-proof)(((p)(not 0)(not 1))((assert 0 1)(assert 1 2)(form 2(not(t 2))(not(t 1)))(res 1 2(t 2))(res 0 3(t 1))))
== Yes 0 yes
(declare-const q Bool)(declare-const r Bool)(define-fun dd()Bool(not q))(assert r)(assert dd)(assert(not(and(not q)r r)))(check-sat)( get-proof;
)(((|r|)(q)(not 1)(and 2 0 0)(not 3)(true))((form 3(not(t 0))(not(t 2))(t 3))(assert 0 0)(assert 1 2)(assert 2 4)(form 4(not(t 4))(not(t 3)))(res 3 4(t 4))(res 0 5(t 3))(res 2 6(t 2))(refl 2)(res 1 7(t 0))))
; end
== Yes 0 yes
(declare-const x Int)(declare-const y Int)(declare-const z Int)(assert(not(< y x)))(assert(> x y))(check-sat)(get-proof)(((y)(x)(< 0 1)(not 2)(> 1 0))((form 2(t 2)(not(le((1 0)((- 1)1))(- 1))))(assert 0 3)(form 3(not(t 3))(not(t 2)))(assert 1 4)(form 4(le((1 0)((- 1)1))(- 1)))(res 3 4(t 4))(res 0 5(not(le((1 0)((- 1)1))(- 1))))(res 2 6(not(t 2)))(res 1 7(t 3))))
== No(4) 1 no 4
(declare-const x Int)(assert((_ divisible 2)x))(assert(<= 3 x))(assert(>= 3 x))(check-sat)(get-proof)(((x)((_ divisible 2)0)(3)(<= 2 0)(>= 2 0)(2)(div 0 5))((assert 0 1)(assert 1 3)(form 3(not(t 3))(le(((- 1)0))(- 3)))(assert 2 4)(form 4(not(t 4))(le((1 0))3))(euclid 1 0)(euclid 1 3)(farkas(1(not(le(((- 1)0)(2 6))0)))(1(not(le((1 0))3)))(2(le((1 6))1)))(farkas(1(not(le((1 0)((- 2)6))0)))(2(not(le((1 6))1))))(res 7 8(le((1 6))1))(res 6 9(le((1 0)((- 2)6))0))(res 5 10(le(((- 1)0)(2 6))0))(res 4 11(le((1 0))3))(res 3 12(t 4))(res 2 13(le(((- 1)0))(- 3)))(res 1 14(t 3))(res 0 15(t 1))))
== No(8) 1 no 8
(declare-sort U 0)(declare-const a U)(declare-const b U)(assert(= a b))(assert(let((k(distinct a b)))k))(check-sat)(get-proof)(((a)(b)(= 0 1)(distinct 0 1))((form 2(not(t 2))(s 0 1))(assert 0 2)(assert 1 3)(form 3(not(t 3))(not(t 4))(not(s 0 1)))(res 2 3(t 3))(res 0 4(s 0 1))(res 1 5(t 2))))
== No(3) 1 no 3
(set-option :global-declarations true)(push 1)(declare-const x Int)(declare-const y Int)(assert false)(pop 1)(assert(=(+(* 5 y)3)(* 5 x)))(check-sat)(get-proof)(((5)(y)(* 0 1)(3)(+ 2 3)(x)(* 0 5)(= 4 6))((assert 0 7)(form 7(not(t 7))(s 4 6))(link 4 6 0)(link 4 6 1)(round(le((5 1)((- 5)5))(- 3))5)(round(not(le(((- 5)1)(5 5))3))5)(farkas(1(not(le((1 1)((- 1)5))(- 1))))(1(not(le(((- 1)1)(1 5))0))))(res 5 6(le(((- 1)1)(1 5))0))(res 4 7(le((1 1)((- 1)5))(- 1)))(res 3 8(le(((- 5)1)(5 5))3))(res 2 9(le((5 1)((- 5)5))(- 3)))(res 1 10(s 4 6))(res 0 11(t 7))))
== No(5) 1 no 5
(declare-const x Int)(declare-const y Int)(assert(=(* 2 x)(+(* 2 y)1)))(check-sat)(get-proof)(((2)(x)(* 0 1)(y)(* 0 3)(1)(+ 4 5)(= 2 6))((assert 0 7)(form 7(not(t 7))(s 2 6))(link 2 6 0)(link 2 6 1)(round(not(le((2 1)((- 2)3))1))2)(round(le(((- 2)1)(2 3))(- 1))2)(farkas(1(not(le((1 1)((- 1)3))0)))(1(not(le(((- 1)1)(1 3))(- 1)))))(res 5 6(le(((- 1)1)(1 3))(- 1)))(res 4 7(le((1 1)((- 1)3))0))(res 3 8(le(((- 2)1)(2 3))(- 1)))(res 2 9(le((2 1)((- 2)3))1))(res 1 10(s 2 6))(res 0 11(t 7))))
== No(4) 1 no 4
(declare-const x Int)(assert(<=(mod x 3)(- 1)))(check-sat)(get-proof)(((x)(3)(div 0 1)(mod 0 1)(1)(- 4)(<= 3 5))((euclid 3 0)(euclid 3 3)(assert 0 6)(form 6(not(t 6))(le((1 3))(- 1)))(farkas(1(not(le(((- 1)0)(3 2))0)))(1(not(le((1 0)((- 3)2)((- 1)3))0)))(0(not(le((1 3))(- 1)))))(res 3 4(le((1 3))(- 1)))(res 2 5(t 6))(res 1 6(le((1 0)((- 3)2)((- 1)3))0))(res 0 7(le(((- 1)0)(3 2))0))))
== No(4) 1 no 4
(declare-const x Int)(assert(let((k((_ divisible 7)x)))k))(assert(>= x 1))(assert(<= x 6))(check-sat)(get-proof)(((x)((_ divisible 7)0)(1)(>= 0 2)(6)(<= 0 4)(7)(div 0 6))((assert 0 1)(assert 1 3)(form 3(not(t 3))(le(((- 1)0))0))(assert 2 5)(form 5(not(t 5))(le((1 0))6))(euclid 1 0)(euclid 1 3)(farkas(1(not(le(((- 1)0)(7 7))0)))(1(not(le((1 0))6)))(7(le((1 7))0)))(farkas(1(not(le((1 0)((- 7)7))0)))(1(not(le(((- 1)0))(- 1))))(7(not(le((1 7))0))))(res 7 8(le((1 7))0))(res 6 9(le((1 0)((- 7)7))0))(res 5 10(le(((- 1)0)(7 7))0))(res 4 11(le((1 0))6))(res 3 12(t 5))(res 2 13(le(((- 1)0))(- 1)))(res 1 14(t 3))(res 0 15(t 1))))
== No(2) 1 no 2
(declare-const p Bool)(declare-const q Bool)(declare-fun f(Bool)Int)(assert p)(assert q)(assert(let((k(f q)))(not(=(f p)k))))(check-sat)(get-proof)(((p)(q)(f 0)(f 1)(= 2 3)(not 4)(- 3 0))((assert 0 0)(assert 1 1)(both 0 1)(cong 2 3)(assert 2 5)(form 5(not(t 5))(not(t 4)))(form 4(t 4)(not(s 2 3)))(res 5 6(not(t 4)))(res 4 7(t 5))(res 3 8(s 2 3))(res 2 9(s 0 1))(res 1 10(t 1))(res 0 11(t 0))))
== Node(6) 1 node 6
(declare-const x Int)(declare-const y Int)(assert(= x y))(assert(not(<= y x)))(check-sat)(get-proof)(((x)(y)(= 0 1)(<= 1 5)(not 3))((link 0 1 1)(assert 0 2)(form 2(not(t 2))(s 0 1))(assert 1 4)(form 4(not(t 4))(not(t 3)))(form 3(t 3)(not(le(((- 1)0)(1 1))0)))(res 4 5(not(t 3)))(res 3 6(t 4))(res 0 7(le(((- 1)0)(1 1))0))(res 2 8(s 0 1))(res 1 9(t 2))))
== Node(3) 1 node 3
(declare-const x Int)(declare-const y Int)(assert(= x y))(assert(!(not(=(abs x)(abs y))):named nn))(check-sat)(get-proof)(((x)(y)(= 0 1)(abs 0)(p 1)(= 3 4)(not 5))((assert 0 2)(form 2(not(t 2))(s 0 1))(cong 3 4)(assert 1 6)(form 6(not(t 6))(not(t 5)))(form 5(t 5)(not(s 3 4)))(res 4 5(not(t 5)))(res 3 6(t 6))(res 2 7(s 3 4))(res 1 8(s 0 1))(res 0 9(t 2))))
== Node(4) 1 node 4
(declare-const x Int)(declare-const y Int)(assert(= x x))(assert(not(<= x x)))(minimize x)(get-proof)(((x)(= 0 0)(<= 0 0)(not 2))((link 0 0 1)(assert 0 1)(form 1(not(t 1))(s 0 0))(assert 1 3)(form 3(not(t 3))(not(t 2)))(form 2(t 2)(not(le()0)))(res 4 5(not(t 2)))(res 3 6(t 3))(res 8 7(le()0))(res 2 8(s 0 0))(res 1 9(t 1))))
== No(8) 1 no 8
(declare-const x Int)(assert(let((k x))(<= 8(mod k 7))))(check-sat)(get-proof)(((x)(7)(div 0 1)(mod 0 1)(8)(<= 4 3))((euclid 3 1)(euclid 3 2)(assert 0 5)(form 5(not(t 5))(le(((- 1)3))(- 8)))(farkas(1(not(le((1 0)((- 7)2))6)))(1(not(le(((- 1)0)(7 2)(1 3))0)))(1(not(le(((- 1)3))(- 8)))))(res 3 4(le(((- 1)3))(- 8)))(res 5 5(t 5))(res 1 6(le(((- 1)0)(7 2)(1 3))0))(res 0 7(le((1 0)((- 7)2))6))))
== No(6) 1 no 6
(declare-const x Int)(assert(> x(abs x)))(check-sat)(get-proof)(((x)(abs 0)(> 0 1))((euclid 1 0)(assert 0 2)(form 2(not(t 2))(le(((- 1)0)(1 1))(- 1)))(farkas(1(not(le((1 0)((- 1)1))0)))(1(not(le(((- 1)0)(1 1))(- 1)))))(res 2 3(le(((- 1)0)(1 1))(- 1)))(res 1 4(t 2))(res 5 0(le((1 0)((- 1)1))0))))
== No(6) 1 no 6
(declare-const x Int)(declare-const y Int)(assert(<=(* 3 x)(- 6)))(assert(<=(*(- 4)x)5))(check-sat)(get-proof)(((x)(3)(* 1 0)(6)(- 3)(<= 2 4)(4)(- 6)(* 7 0)(5)(<= 8 9))((assert 0 5)(form 5(not(t 5))(le((1 0))(- 2)))(assert 1 10)(form 10(not(t 10))(le(((- 1)0))1))(farkas(4(not(le(((- 1)0))1)))(4(not(le((1 0))(- 2)))))(res 3 4(le(((- 1)0))1))(res 2 5(t 10))(res 1 6(t 10))(res 0 7(t 5))))
== No(7) 1 no 7
(declare-const a Int)(declare-const b Int)(declare-const c Int)(assert(= b a))(assert(= b c))(assert(not(= a c)))(check-sat)(get-proof)(((b)(a)(= 0 1)(c)(= 0 3)(= 1 3)(not 5))((assert 0 2)(form 2(not(t 2))(s 0 1))(sym 0 1)(assert 2 4)(form 4(not(t 4))(s 0 3))(trans 1 0 3)(assert 2 6)(form 6(not(t 6))(not(t 5)))(form 5(t 5)(not(s 1 3)))(res 7 8(not(t 5)))(res 6 9(t 6))(res 5 10(s 1 3))(res 4 11(s 0 3))(res 3 12(t 4))(res 2 13(s 1 0))(res 1 14(s 0 1))(res 0 15(t 2))))
== No(3) 1 no 3
(declare-const p Bool)(declare-const q Bool)(declare-const r Bool)(declare-const s Bool)(declare-const u Bool)(declare-const v Bool)(declare-const w Bool)(declare-const z Bool)(assert(distinct p q r s u v w z))(check-sat)(get-proof)(((p)(q)(r)(s)(u)(v)(w)(z)(distinct 0 1 2 3 4 5 6 7))((form 8(not(t 8)))(assert 0 8)(res 0 4294967296(not(t 8)))))
== No(2) 1 no 2
(declare-const x Int)(declare-const y Int)(assert(not(< y(* 2 x)(* 3 x))))(assert(>(* 2 x)y))(assert(>(* 3 x)(* 2 x)))(check-sat)(get-proof)(((y)(2)(x)(* 1 2)(3)(* 4 2)(< 0 3 5)(not 6)(> 3 0)(> 5 3))((form 6(t 6)(not(le((1 0)((- 2)2))(- 1)))(not(le(((- 1)2))(- 1))))(assert 0 7)(form 7(not(t 7))(not(t 6)))(assert 1 8)(form 8(not(t 8))(le((1 0)((- 2)2))(- 1)))(assert 2 9)(form 9(not(t 9))(le(((- 1)2))(- 1)))(res 5 6(t 9))(res 0 7(not(le(((- 1)2))(- 1))))(res 4 8(le((1 0)((- 2)2))(- 1)))(res 3 9(t 8))(res 2 10(not(t 6)))))
== No(12) 1 no 12
(set-option :global-declarations true)(push 1)(declare-sort U 0)(declare-const a U)(declare-const b U)(declare-const p Bool)(assert false)(pop 1)(assert(not p))(assert(not(=(ite(not p)a b)a)))(check-sat)(get-proof)(((p)(not 0)(a)(b)(ite 1 2 3)(= 4 2)(not 5))((pick 4 18446744073709551616)(assert 0 1)(assert 1 6)(form 6(not(t 6))(not(t 5)))(form 5(t 5)(not(s 4 2)))(res 3 4(not(t 5)))(res 2 5(t 6))(res 0 6(s 4 2))(res 1 7(t 1))))
== No(0) 1 no 0
(declare-const x Int)(declare-const y Int)(assert(= y(+ x 2)))(assert(not(<=(+ x 2)y)))(check-sat)(get-proof)(((y)(x)(2)(+ 1 2)(= 0 3)(<= 3 0)(not 5))((link 0 3 7)(assert 0 4)(form 4(not(t 4))(s 0 3))(assert 1 6)(form 6(not(t 6))(not(t 5)))(form 5(t 5)(not(le(((- 1)0)(1 1))(- 2))))(res 4 5(not(t 5)))(res 3 6(t 6))(res 0 7(le(((- 1)0)(1 1))(- 2)))(res 2 8(s 0 3))(res 1 9(t 4))))
== No(0) 1 no 0
(declare-const a Int)(declare-const b Int)(declare-const p Bool)(assert(not p))(assert(not(=(ite(not p)a b)a)))(check-sat)(get-proof)(((p)(not 0)(a)(b)(ite 1 2 3)(= 4 2)(not 5))((pick 4 0)(assert 0 1)(assert 1 6)(form 6(not(t 6))(not(t 5)))(form 5(t 5)(not(s 4 2)))(res 3 4)(res 2 5(t 6))(res 0 6(s 4 2))(res 1 7(t 1))))
== No(5) 1 no 5
(declare-const p Bool)(declare-const q Bool)(declare-sort U 0)(declare-fun f(Bool)U)(assert(not p))(assert(not(=(f p)(f false))))(push 2)(push 1)(assert false)(pop 1)(push)(check-sat)(get-proof)(((p)(not 0)(false)(f 0)(f 2)(= 3 4)(not 5))((assert 0 1)(form 1(not(t 1))(not(t 0)))(form 2(not(t 2)))(none 0 2)(cong 3 4)(assert 1 6)(form 6(not(t 6))(not(t 5)))(form 5(t 5)(not(s 3 4)))(res 6 7(not(t 5)))(res 5 8(t 6))(res 4 9(s 3 4))(res 3 10(s 0 2))(res 2 11(not(t 2)))(farkas(1(not(le((1 1)(1 4))0))))(res 1 12(not(t 0)))(res 0 13(t 1))))
== No(13) 1 no 13
(declare-const x Int)(declare-const y Int)(assert(<=(+(* 5 x)(* 2 y))(- 7)))(assert(<=(* 4 x)2))(assert(>= 25(+(*(- 24)x)(*(- 8)y))))(check-sat)(get-proof)(((x)(y)(5)(* 2 0)(2)(* 4 1)(+ 3 5)(7)(- 7)(<= 6 8)(4)(* 10 0)(<= 11 4)(25)(24)(- 14)(* 15 0)(8)(- 17)(* 18 1)(+ 16 19)(>= 13 20))((assert 0 9)(form 9(not(t 9))(le((5 0)(2 1))(- 7)))(assert 1 12)(form 12(not(t 12))(le((1 0))0))(assert 2 21)(form 21(not(t 21))(le(((- 3)0)((- 1)1))3))(farkas(4(not(le((5 0)(2 1))(- 7))))(4(not(le((1 0))0)))(8(not(le(((- 3)0)((- 1)1))3))))(res 5 6(le(((- 3)0)((- 1)1))3))(res 4 7(t 21))(res 3 8(le((1 0))0))(res 2 9(t 12))(res 1 10(le((5 0)(2 1))(- 7)))(farkas(1(le((1 8))0))(1(not(le((1 8))0))))(res 0 11(t 9))))
== No(12) 1 no 12
(declare-const p Bool)(declare-const q Bool)(declare-const r Bool)(declare-const s Bool)(assert s)(assert(not(=> p q r s)))(check-sat)(get-proof)(((s)(p)(q)(r)(=> 1 2 3 0)(not 4)(not 4))((form 4(not(t 0))(t 4))(assert 0 0)(assert 1 5)(form 5(not(t 6))(not(t 4)))(res 2 3(t 5))(res 0 4(t 4))(res 1 5(t 0))))
== No(3) 1 no 3
(declare-const x Int)(define-fun dd()Bool(<= x 7))(assert((_ divisible 4)x))(assert(<= 5 x))(assert dd)(check-sat)(get-proof)(((x)((_ divisible 4)0)(5)(<= 2 0)(7)(<= 0 4)(4)(div 0 6)(dd))((assert 0 1)(assert 1 3)(form 3(not(t 3))(le(((- 1)0))(- 5)))(assert 2 5)(form 5(not(t 5))(le((1 0))7))(euclid 1 0)(euclid 1 3)(farkas(1(not(le(((- 1)0)(4 7))0)))(1(not(le((1 0))7)))(4(le((1 7))1)))(farkas(1(not(le((1 0)((- 4)7))0)))(1(not(le(((- 1)0))(- 5))))(4(not(le((1 7))1))))(res 7 8(le((1 7))1))(res 6 9(le((1 0)((- 4)7))0))(res 5 10(le(((- 1)0)(4 7))0))(res 4 11(le((1 0))7))(res 3 12(t 5))(res 2 13(le(((- 1)0))(- 5)))(res 1 14(t 3))(res 0 15(t 1))))
== Node(8) 1 node 8
(declare-const p Bool)(assert(not p))(assert(not(xor(not p)p)))(assert(not p))(check-sat)(get-proof)(((p)(not 0)(xor 1 0)(not 2))((form 2(not(t 1))(t 2)(t 0))(assert 0 1)(assert 1 3)(form 999(le((170141183460469231731687303715884105728 999))0))(form 3(not(t 3))(not(t 2)))(form 1(not(t 1))(not(t 0)))(res 0 4(t 0))(res 3 5(not(t 2)))(res 2 6(t 3))(res 1 7(t 1))))
== Range(3) 8 range 3
(declare-const x Int)(declare-const y Int)(assert(=(* 3 x)(+(* 3 y)2)))(check-sat)(get-proof)(((3)(x)(* 0 1)(y)(* 0 3)(2)(+ 4 5)(= 2 6))((assert 0 7)(form 7(not(t 7))(s 2 6))(link 2 6 0)(link 2 6 1)(round(le((3 1)((- 3)3))2)3)(round(le(((- 3)1)(3 3))(- 2))3)(farkas(1(not(le((1 1)((- 1)3))0)))(1(not(le(((- 1)1)(1 3))(- 1)))))(res 5 6(le(((- 1)1)(1 3))(- 1)))(res 4 7(le((1 1)((- 1)3))0))(res 3 8(le(((- 3)1)(3 3))(- 2)))(res 2 9(le((3 1)((- 3)3))2))(res 1 10(s 2 6))(farkas(1(le()170141183460469231731687303715884105727)))(res 0 11(t 7))))
== Range(12) 8 range 12
(declare-fun f(Int)Int)(assert(< 170141183460469231731687303715884105727 170141183460469231731687303715884105727))(check-sat)(get-proof)(((170141183460469231731687303715884105727)(< 0 0)(170141183460469231731687303715884105727)(+ 2 2)(f 3)(> 4 2))((assert 0 1)(form 1(not(t 1))(le()(- 1)))(farkas((/ 170141183460469231731687303715884105727 170141183460469231731687303715884105726)(not(le()(- 1)))))(res 1 2(le()(- 1)))(res 0 3(t 1))(link 4 2 2)))
== Range(5) 8 range 5
(declare-const x Int)(assert(>= x 170141183460469231731687303715884105727))(assert(< x 170141183460469231731687303715884105727))(get-proof)(((x)(170141183460469231731687303715884105727)(>= 0 1)(< 0 1))((assert 0 2)(form 2(not(t 2))(le(((- 1)0))(- 170141183460469231731687303715884105727)))(assert 1 3)(form 3(not(t 3))(le((1 0))170141183460469231731687303715884105726))(farkas(1(not(le(((- 1)0))(- 170141183460469231731687303715884105727))))(1(not(le((1 0))170141183460469231731687303715884105726))))(res 3 4(le((1 0))170141183460469231731687303715884105726))(res 2 5(t 3))(res 1 6(le(((- 1)0))(- 170141183460469231731687303715884105727)))(res 0 7(t 2))))
== NoProof 7 no proof
(declare-const x Int)(declare-const y Int)(assert(<= y(+ y 1)))(assert(not(=(+ y 1)y)))(assert(<=(+ y 1)y))(check-sat)(get-proof)(((y)(1)(+ 0 1)(<= 2 0)(<= 0 2)(= 2 0)(not 5))((link 2 0 2)(assert 0 3)(form 3(not(t 3))(le()(- 1)))(assert 1 4)(form 4(not(t 4))(le()1))(assert 2 6)(form 6(not(t 6))(not(t 5)))(form 5(t 5)(not(s 2 0)))(res 6 7(not(t 5)))(res 5 8(t 6))(res 0 9(s 2 0))(res 4 10(le()1))(res 3 11(t 4))(res 2 12(le()(- 1)))(res 1 13(t 3))))
== No(1) 1 no 1
(declare-const x Int)(declare-const y Int)(assert(<=(div(- x y)3)0))(assert(<= 3(- x y)))(check-sat)(get-proof)(((x)(y)(- 0 1)(3)(div 2 3)(0)(<= 4 5)(<= 3 2))((euclid 4 2)(assert 0 6)(form 6(not(t 6))(le((1 4))0))(assert 1 7)(form 7(not(t 7))(le(((- 1)0)(1 1))(- 3)))(farkas(1(not(le((1 0)((- 1)1)((- 3)4))2)))(3(not(le((1 4))0)))(1(not(le(((- 1)0)(1 1))(- 3)))))(res 4 5(le(((- 1)0)(1 1))(- 3)))(res 3 6(t 7))(res 2 7(le((1 4))0))(res 1 8(t 6))(res 0 9(le((1 0)((- 1)1)((- 3)4))2))))
== No(0) 1 no 0
(declare-const x Int)(assert((_ divisible 3)x))(assert(<= 7 x))(assert(>= 8 x))(check-sat)(get-proof)(((x)((_ divisible 3)0)(7)(<= 2 0)(8)(>= 4 0)(3)(div 0 6))((assert 0 1)(assert 1 3)(form 3(not(t 3))(le(((- 1)0))(- 7)))(assert 2 5)(form 5(not(t 5))(le((1 0))8))(euclid 1 0)(euclid 1 5)(farkas(1(not(le(((- 1)0)(3 7))0)))(1(not(le((1 0))8)))(3(le((1 7))2)))(farkas(1(not(le((1 0)((- 3)7))0)))(1(not(le(((- 1)0))(- 7))))(3(not(le((1 7))2))))(res 7 8(le((1 7))2))(res 6 9(le((1 0)((- 3)7))0))(res 5 10(le(((- 1)0)(3 7))0))(res 4 11(le((1 0))8))(res 3 12(t 5))(res 2 13(le(((- 1)0))(- 7)))(res 1 14(t 3))(res 0 15(t 1))))
== No(6) 1 no 6
(declare-const x Int)(assert(<= 6(mod x 5)))(check-sat)(get-proof)(((x)(5)(abs 0)(mod 0 1)(6)(<= 4 3))((euclid 3 1)(euclid 3 2)(assert 0 5)(form 5(not(t 5))(le(((- 1)3))(- 6)))(farkas(1(not(le((1 0)((- 5)2))4)))(1(not(le(((- 1)0)(5 2)(1 3))0)))(1(not(le(((- 1)3))(- 6)))))(res 3 4(le(((- 1)3))(- 6)))(res 2 5(t 5))(res 1 6(le(((- 1)0)(5 2)(1 3))0))(res 0 7(le((1 0)((- 5)2))4))))
== No(0) 1 no 0
(declare-const x Int)(assert((_ divisible 3)(- x 1)))(assert(<=(- 8)(- x 1)))(assert(<=(- x 1)(- 7)))(check-sat)(get-proof)(((x)(1)(- 0 1)((_ divisible 3)2)(8)(- 4)(<= 5 2)(7)(- 7)(<= 2 8)(3)(div 2 10))((assert 0 3)(assert 1 6)(form 6(not(t 6))(le(((- 1)0))7))(assert 2 9)(form 9(not(t 9))(le((1 0))(- 6)))(euclid 0 0)(euclid 3 3)(farkas(1(not(le(((- 1)0)(3 11))(- 1))))(1(not(le((1 0))(- 6))))(3(le((1 11))(- 3))))(farkas(1(not(le((1 0)((- 3)11))1)))(1(not(le(((- 1)0))7)))(3(not(le((1 11))(- 3)))))(res 7 8(le((1 11))(- 3)))(res 6 9(le((1 0)((- 3)11))1))(res 5 10(le(((- 1)0)(3 11))(- 1)))(res 4 11(le((1 0))(- 6)))(res 3 12(t 9))(res 2 13(le(((- 1)0))7))(res 1 14(t 6))(res 0 15(t 3))))
== No(5) 1 no 5
(declare-const x Int)(declare-const y Int)(assert(<=(* 3 x)(+ y 1)))(assert(<=(+ y 1)(* 3 x)))(assert(not(=(* 3 x)(+ y 1))))(check-sat)(get-proof)(((x)(y)(3)(* 2 0)(1)(+ 1 4)(<= 3 5)(<= 5 3)(= 3 5)(not 8)(170141183460469231731687303715884105727)(- 10)(div 11 10)(+ 10 10)(abs 13)(mod 13 10)(div 13 10)((_ divisible 3)13)(3)(div 13 18)(abs 10))((link 3 5 2)(assert 0 6)(form 6(not(t 6))(le((3 0)((- 1)1))1))(assert 1 7)(form 7(not(t 7))(le(((- 3)0)(1 1))(- 1)))(assert 2 9)(form 9(not(t 9))(not(t 8)))(form 8(t 8)(not(s 3 5)))(res 6 7(not(t 8)))(res 5 8(t 9))(res 0 9(s 3 5))(res 4 10(le(((- 3)0)(1 1))(- 1)))(res 3 11(t 7))(res 2 12(le((3 0)((- 1)1))1))(euclid 14 2)(res 1 13(t 6))))
== Range(14) 8 range 14
(declare-const x Int)(declare-const y Int)(assert(<=(div(- x y)4)1))(assert(>=(!(- x y):named nn)8))(check-sat)(get-proof)(((x)(y)(- 0 1)(4)(div 2 3)(1)(<= 4 5)(8)(>= 2 7))((euclid 4 1)(assert 0 6)(form 6(not(t 6))(le((1 4))1))(assert 1 8)(form 8(not(t 8))(le(((- 1)0)(1 1))(- 8)))(farkas((- 1)(not(le((1 0)((- 1)1)((- 4)4))3)))(4(not(le((1 4))1)))(1(not(le(((- 1)0)(1 1))(- 8)))))(res 4 5(le(((- 1)0)(1 1))(- 8)))(res 3 6(t 8))(res 2 7(le((1 4))1))(res 1 8(t 6))(res 0 9(le((1 0)((- 1)1)((- 4)4))3))))
== No(5) 1 no 5
(declare-const x Int)(declare-const y Int)(declare-const z Int)(assert(< 6 2 x))(assert(not(> x 2)))(check-sat)(get-proof)(((6)(2)(x)(< 0 1 2)(> 2 1)(not 4))((form 3(not(t 3))(le(((- 1)2))(- 3)))(assert 0 3)(assert 1 5)(form 5(not(t 5))(not(t 4)))(form 4(t 4)(not(le((2 2))(- 3))))(res 3 4(not(t 4)))(res 2 5(t 5))(res 0 6(le(((- 1)2))(- 3)))(res 1 7(t 3))))
== No(4) 1 no 4
(declare-const a Int)(declare-const b Int)(define-fun dd()Bool(= a b))(assert(distinct a b))(assert dd)(check-sat)(get-proof)(((a)(b)(distinct 0 1)(= 0 1)(* 1 1))((form 2(not(t 2))(not(s 0 1)))(assert 0 2)(assert 1 3)(form 3(not(t 3))(s 0 1))(res 2 3(t 3))(res 0 4(not(s 0 1)))(res 1 5(t 2))))
== Node(4) 1 node 4
(declare-const p Bool)(declare-const q Bool)(assert p)(assert q)(assert(not(and p q)))(check-sat)(get-proof)(((p)(q)(and 0 3)(not 2))((form 2(not(t 0))(not(t 1))(t 2))(assert 0 0)(assert 1 1)(assert 2 3)(form 3(not(t 3))(not(t 2)))(res 3 4(t 3))(res 0 5(t 2))(res 2 6(t 1))(res 1 7(t 0))))
== Node(2) 1 node 2
(declare-const x Int)(declare-const y Int)(assert(=(+(* 3 y)1)(* 3 x)))(check-sat)(get-proof)(((3)(y)(* 0 1)(1)(+ 2 3)(x)(* 0 5)(= 4 6))((assert 0 7)(form 7(not(t 7))(s 4 6)0)(link 4 6 0)(link 4 6 1)(round(le((3 1)((- 3)5))(- 1))3)(round(le(((- 3)1)(3 5))1)3)(farkas(1(not(le((1 1)((- 1)5))(- 1))))(1(not(le(((- 1)1)(1 5))0))))(res 5 6(le(((- 1)1)(1 5))0))(res 4 7(le((1 1)((- 1)5))(- 1)))(res 3 8(le(((- 3)1)(3 5))1))(res 2 9(le((3 1)((- 3)5))(- 1)))(res 1 10(s 4 6))(res 0 11(t 7))))
== No(1) 1 no 1
(declare-const p Bool)(declare-const q Bool)(declare-fun f(Bool)Int)(assert(not p))(assert(not(=(f p)(f false))))(check-sat)(get-proof)(((p)(not 0)(false)(f 0)(f 2)(= 3 4)(not 5))((assert 0 1)(form 1(not(t 1))(not(t 0)))(form 2(not(t 2)))(none 0 2)(cong 3 4)(assert 1 6)(truth 4 4)(form 6(not(t 6))(not(t 5)))(form 5(t 5)(not(s 3 4)))(res 6 7(not(t 5)))(res 5 8(t 6))(res 4 9(s 3 4))(res 3 10(s 0 2))(res 2 11(not(t 2)))(res 1 12(not(t 0)))(res 0 13(t 1))))
== No(6) 1 no 6
(assert false)(check-sat)(get-proof)(((false))((form 0(t 0)(not(le()(- 170141183460469231731687303715884105728))))(form 0(not(t 0)))(assert 0 0)(res 0 1(not(t 0)))))
== Range(0) 8 range 0
(declare-const x Int)(declare-const y Int)(assert(= y y))(assert(not(<= y y)))(check-sat)(get-proof)(((y)(= 0 0)(<= 0 0)(not 2))((link 0 0 1)(assert 0 1)(form 1(not(t 1))(s 0 0))(assert 1 3)(form 3(not(t 3))(not(t 2)))(form 2(t 2)(not(le()0)))(res 4 5(not(t 2)))(res 3 6(t 3))(res 0 7(le()0))(res 2 8(s 0 0))(farkas((/ 3 2)(not(le()(- 170141183460469231731687303715884105727)))))(res 1 9(t 1))))
== Range(10) 8 range 10
(declare-const x Int)(declare-const y Int)(assert(not(>= x(+ x 5))))(assert(<=(+ x 5)x))(check-sat)(define-fun k()Int 1)(get-proof)(((x)(5)(+ 0 1)(>= 0 2)(not 3)(<= 2 0))((form 3(t 3)(not(le()(- 5))))(assert 0 4)(form 4(not(t 4))(not(t 3)))(assert 1 5)(form 5(not(t 5))(le()(- 5)))(res 3 4(t 5))(res 0 5(not(le()(- 5))))(res 2 6(not(t 3)))(res 1 7(t 4))))
== NoProof 7 no proof
(declare-const x Int)(assert true)(assert(>= 2(div x 2 4)))(assert(>= x 24))(check-sat)(get-proof)(((x)(2)(div 0 1)(4)(div 0 1 3)(>= 1 4)(24)(>= 0 6))((euclid 2 1)(euclid 4 1)(assert 0 5)(form 5(not(t 5))(le((1 4))2))(assert 1 7)(form 7(not(t 7))(le(((- 1)0))(- 24)))(farkas(1(not(le((1 0)((- 2)2))1)))(2(not(le((1 2)((- 4)4))3)))(8(not(le((1 4))2)))(1(not(le(((- 1)0))(- 24)))))(res 5 6(le(((- 1)0))(- 24)))(res 4 7(t 7))(res 3 8(le((1 4))2))(res 2 9(t 5))(res 1 10(le((1 2)((- 4)4))3))(res 0 11(le((1 0)((- 2)2))1))))
== No(2) 1 no 2
(declare-const x Int)(declare-const y Int)(assert(not(>=(*(- 2)y)7 x)))(assert(<= 7(*(- 2)y)))(assert(<= x 7))(check-sat)(get-proof)(((2)(- 0)(y)(* 1 2)(7)(x)(>= 3 4 5)(not 6)(<= 4 3)(<= 5 4)(=> 7))((form 6(t 6)(not(le((1 2))(- 4)))(not(le((1 5))7)))(assert 0 7)(form 7(not(t 7))(not(t 6)))(assert 1 8)(form 8(not(t 8))(le((1 2))(- 4)))(assert 2 9)(form 9(not(t 9))(le((1 5))7))(res 5 6(t 9))(res 0 7(not(le((1 5))7)))(res 4 8(le((1 2))(- 4)))(res 3 9(t 8))(res 2 10(not(t 6)))(res 1 11(t 7))))
== Node(10) 1 node 10
(declare-const p Bool)(declare-const q Bool)(declare-const r Bool)(declare-const s Bool)(declare-const v Bool)(assert(not s))(assert(= s p v r p q))(assert v)(check-sat)(get-proof)(((s)(p)(v)(r)(q)(= 0 1 2 3 1 4)(not 0))((form 5(t 0)(not(t 5))(not(t 2)))(assert 0 6)(form 6(not(t 6))(not(t 0)))(assert 1 5)(assert 2 2)(res 0 4(not(t 2)))(res 3 5(t 5))(:res 2 6(not(t 0)))(res 1 7(t 6))))
== No(7) 1 no 7
(declare-const p Bool)(declare-const q Bool)(assert(xor p q))(assert q)(assert(= p q))(check-sat)(get-proof)(((p)(q)(xor 0 1)(= 0 1))((assert 0 2)(form 2(not(t 2))(not(t 0))(not(t 1)))(assert 1 1)(assert 2 3)(form 3(not(t 3))(t 0)(not(t 1)))(res 3 4(t 3))(res 1 5(not(t 0)))(res 2 6(t 1))(farkas(1(not(le()(- 85070591730234615865843651857942052864))))(1(not(le()(- 85070591730234615865843651857942052864)))))(res 0 7(t 2))))
== Range(8) 8 range 8
(declare-const x Int)(declare-const y Int)(assert(<= 5(*(- 3)y)))(assert(<=(*(- 3)y)5))(assert(not(= 5(*(- 3)y))))(check-sat)(reset)(get-proof)(((y)(5)(3)(- 2)(* 3 0)(<= 1 4)(<= 4 1)(= 1 4)(not 7))((link 1 4 2)(assert 0 5)(form 5(not(t 5))(le((1 0))(- 2)))(farkas(3(not(le((1 0))(- 2))))(1(le((3 0))(- 5))))(assert 1 6)(form 6(not(t 6))(le(((- 1)0))1))(farkas(3(not(le(((- 1)0))1)))(1(le(((- 3)0))5)))(assert 2 8)(form 8(not(t 8))(not(t 7)))(form 7(t 7)(not(s 1 4)))(res 8 9(not(t 7)))(res 7 10(t 8))(res 0 11(s 1 4))(res 6 12(le(((- 3)0))5))(res 5 13(le(((- 1)0))1))(res 4 14(t 6))(res 3 15(le((3 0))(- 5)))(res 2 16(le((1 0))(- 2)))(res 1 17(t 5))))
== NoProof 7 no proof
(declare-const p Bool)(declare-const q Bool)(declare-const s Bool)(declare-const v Bool)(assert q)(assert(not(not v)))(assert(not(xor q p s s v(not v))))(assert(not v))(assert(not p))(check-sat)(get-proof)(((not 10)(q)(v)(not 1)(p)(s)(xor 0 3 4 4 1 2)(not 2)(not 5)(not 3))((assert 1 6)(form 6(not(t 6))(not(t 2)))(assert 3 2)(res 1 2(not(t 2)))(res 0 3(t 6))))
== Node(0) 1 node 0
(declare-const x Int)(declare-const y Int)(assert(<= y(* 3 y)))(assert(<=(* 3 y)y))(assert(not(= y(* 3 y))))(check-sat)(get-proof)(((y)(3)(* 1 0)(<= 0 2)(<= 2 0)(= 0 2)(not 5))((link 0 2 2)(assert 0 3)(form 3(not(t 3))(le(((- 1)0))0))(farkas(2(not(le(((- 1)0))0)))(1(le(((- 2)0))0)))(assert 1 4)(form 4(not(t 4))(le((1 0))0))(farkas(2(not(le((1 0))0)))(1(le((2 0))0)))(assert 2 6)(form 6(not(t 6))(not(t 5)))(form 5(t 5)(not(s 0 2)))(res 8 9(not(t 5)))(res 7 10(t 6))(res 0 11(s 0 2))(res 6 12(le((2 0))0))(res 5 13(le((1 0))0))(res 4 14(t 4))(res 3 15(le(((- 2)0))0))(res 2 16(le(((- 1)0))0))(())))
== No(18) 1 no 18
(declare-const x Int)(declare-const y Int)(assert(= y(+ x 3)))(assert(not(<= y(+ x 3))))(exit)(check-sat)(get-proof)(((y)(x)(3)(+ 1 2)(= 0 3)(<= 0 3)(not 5))((link 0 3 0)(assert 0 4)(form 4(not(t 4))(s 0 3))(assert 1 6)(form 6(not(t 6))(not(t 5)))(form 5(t 5)(not(le((1 0)((- 1)1))3)))(res 4 5(not(t 5)))(res 3 6(t 6))(res 0 7(le((1 0)((- 1)1))3))(res 2 8(s 0 3))(res 1 9(t 4))))
== NoProof 7 no proof
(declare-const x Int)(declare-const y Int)(assert(= x y))(assert(not(=(abs x)(abs y))))(check-sat)(get-proof)(((x)(y)(= 0 1)(abs 0)(abs 1)(= 3 4)(not 5)(Bool))((assert 0 2)(form 2(not(t 2))(s 0 1))(cong 3 4)(assert 1 6)(form 6(not(t 6))(not(t 5)))(form 5(t 5)(not(s 3 4)))(res 4 5(not(t 5)))(res 3 6(t 6))(res 2 7(s 3 4))(res 1 8(s 0 1))(res 0 9(t 2))))
== Node(7) 1 node 7
(declare-const x Int)(assert(<(abs x)(- x)))|(check-sat)(get-proof)(((x)(abs 0)(- 0)(< 1 2))((euclid 1 1)(assert 0 3)(form 3(not(t 3))(le((1 0)(1 1))(- 1)))(farkas(1(not(le(((- 1)0)((- 1)1))0)))(1(not(le((1 0)(1 1))(- 1)))))(res 2 3(le((1 0)(1 1))(- 1)))(res 1 4(t 3))(res 0 5(le(((- 1)0)((- 1)1))0))))
== NoProof 7 no proof
(declare-const p Bool)(declare-const q Bool)(declare-const r Bool)(assert p)(assert(not(or q p p p q r)))(check-sat)(get-proof)(((p)(q)(r)(or 1 0 0 0 1 2)(not 3)(par))((form 3(not(t 0))(t 3))(assert 0 0)(assert 1 4)(form 4(not(t 4))(not(t 3)))(res 2 3(t 4))(res 0 4(t 3))(res 1 5(t 0))))
== Node(5) 1 node 5
(declare-const x Int)(assert(<= 8(mod x 7)))(check-sat)(get-proof)(((x)(7)(div 0 1)(mod 0 1)(8)(<= 4 3))((euclid 3 1)(euclid 3 2)(assert 0 5)(form 5(le(((- 1)3))(- 8)))(farkas(1(not(le((1 0)((- 7)2))6)))(1(not(le(((- 1)0)(7 2)(1 3))0)))(1(not(le(((- 1)3))(- 8)))))(res 3 4(le(((- 1)3))(- 8)))(res 2 5(t 5))(res 1 6(le(((- 1)0)(7 2)(1 3))0))(res 0 7(le((1 0)((- 7)2))6))))
== No(3) 1 no 3
(declare-const x Int)(assert(<=(mod(+ x 7)3)(- 2)))(check-sat)(get-proof)(((x)(7)(+ 0 1)(3)(div 2 3)(mod 2 3)(2)(- 6)(<= 5 7))((euclid 5 0)(euclid 5 3)(assert 0 8)(form 8(not(t 8))(le((1 5))(- 2)))(farkas(1(not(le((1 0)((- 3)4)((- 1)5))(- 7))))(1(not(le((1 5))(- 2)))))(res 3 4(le((1 5))(- 2)))(res 2 5(t 8))(res 1 6(le((1 0)((- 3)4)((- 1)5))(- 7)))(res 0 7(le(((- 1)0)(3 4))7))))
== No(4) 1 no 4
(declare-const q Bool)(check-sat-assuming((not q)(not(not q))(or(not q)q)))(get-proof)(((q)(not 0)(or 1 0)(not 1))((assert 0 1)(assert 1 3)(form 3(not(t 3))(not(t 4))(not(t 1)))(res 1 2(t 3))(res 0 3(t 1))))
== No(2) 1 no 2
(declare-const p Bool)(declare-const q Bool)(declare-const r Bool)(assert(not r))(assert(or p q))(assert(or(not p)r))(assert(or(not q)r))(check-sat)(get-proof)(((r)(not 0)(p)(q)(or 2 3)(not 2)(or 5 0)(not 3)(or 7 0))((assert 0 1)(form 1(not(t 1))(not(t 0)))(assert 1 4)(form 4(not(t 4))(t 2)(t 3))(assert 2 6)(form 6(not(t 6))(t 5)(t 0))(form 5(not(t 5))(not(t 2)))(assert 3 8)(form 8(not(t 8))(t 7)(t 0))(form 7(t 7)(not(t 3)))(res 8 9(t 7))(res 7 10(t 8))(res 3 11(t 3))(res 6 12(not(t 2)))(res 5 13(t 5))(res 4 14(t 6))(res 2 15(t 4))(res 1 16(not(t 0)))(res 0 17(t 1))))
== No(9) 1 no 9
(declare-const x Int)(assert(=(* 85070591730234615865843651857942052864 x)1))(check-sat)(get-proof)(((85070591730234615865843651857942052864)(x)(* 0 1)(1)(= 2 3))((assert 0 4)(form 4(not(t 4))(s 2 3))(link 2 3 0)(link 2 3 1)(round(not(le((85070591730234615865843651857942052864 1))1))85070591730234615865843651857942052864)(round(le(((- 85070591730234615865843651857942052864)1))(- 1))85070591730234615865843651857942052864)(farkas(1(not(le((1 1))0)))(1(not(le(((- 1)1))(- 1)))))(res 5 6(le(((- 1)1))(- 1)))(res 4 7(le((1 1))0))(res 3 8(le(((- 85070591730234615865843651857942052864)1))(- 1)))(res 2 9(le((85070591730234615865843651857942052864 1))1))(res 1 10(s 2 3))(res 0 11(t 4))))
== No(4) 1 no 4
(declare-const x Int)(assert(<=(div x 3 4)(- 2)))(assert(<=(- 12)x))(check-sat)(get-proof)(((x)(3)(div 0 1)(4)(div 0 1 3)(2)(- 5)(<= 4 6)(12)(- 8)(<= 9 0))((euclid 2 1)(euclid 4 1)(assert 0 7)(form 7(not(t 7))(le((1 4))(- 2)))(assert 1 10)(form 10(not(t 10))(le(((- 1)0))12))(farkas(1(not(le((1 0)((- 3)2))2)))((/ 0 0)(not(le((1 2)((- 4)4))3)))(12(not(le((1 4))(- 2))))(1(not(le(((- 1)0))12))))(res 5 6(le(((- 1)0))12))(res 4 7(t 10))(res 3 8(le((1 4))(- 2)))(res 2 9(t 7))(res 1 10(le((1 2)((- 4)4))3))(res 0 11(le((1 0)((- 3)2))2))))
== No(6) 1 no 6
(declare-const x Int)(assert(>= 4 x))(assert(<=(- 4)x))(assert(< 4(abs x)))(check-sat)(get-proof)(((x)(abs 0)(4)(>= 2 0)(- 2)(<= 4 0)(< 2 1))((euclid 1 2)(assert 0 3)(form 3(not(t 3))(le((1 0))4))(assert 1 5)(form 5(not(t 5))(le(((- 1)0))4))(assert 2 6)(form 6(not(t 6))(le(((- 1)1))(- 5)))(farkas(1(not(le(((- 1)0)(1 1))0)))(1(not(le((1 0))4)))(1(not(le(((- 1)1))(- 5)))))(farkas(1(not(le((1 0)(1 1))0)))(1(not(le(((- 1)0))4)))(1(not(le(((- 1)1))(- 5)))))(res 0 8(le((1 0)(1 1))0))(res 7 9(not(le((0 0)(1 1))0)))(res 6 10(le(((- 1)1))(- 5)))(res 5 11(t 6))(res 4 12(le(((- 1)0))4))(res 3 13(t 5))(res 2 14(le((1 0))4))(res 1 15(t 3))))
== No(10) 1 no 10
(declare-const x Int)(declare-const y Int)(declare-const z Int)(assert(>= 8(+(* 5 x)(*(- 6)z)(*(- 6)y))))(assert(>=(- 11)(+(*(- 5)x)(* 6 z)(* 6 y))))(check-sat)(get-proof)(((x)(z)(y)(8)(5)(* 4 0)(6)(- 6)(* 7 1)(* 7 2)(+ 5 8 9)(>= 3 10)(11)(- 12)(- 4)(* 14 0)(* 6 1)(* 6 2)(+ 15 16 17)(>= 13 18)(1000000000000000000000000000000000000000000000000000000000000))((assert 0 11)(form 11(not(t 11))(le((5 0)((- 6)1)((- 6)2))8))(assert 1 19)(form 19(not(t 19))(le(((- 5)0)(6 1)(6 2))(- 11)))(farkas((/ 1 2)(not(le(((- 5)0)(6 1)(6 2))(- 11))))((/ 1 2)(not(le((5 0)((- 6)1)((- 6)2))8))))(res 3 4(le(((- 5)0)(6 1)(6 2))(- 11)))(res 2 5(t 19))(res 1 6(le((5 0)((- 6)1)((- 6)2))8))(res 0 7(t 11))))
== Node(20) 1 node 20
(declare-const p Bool)(declare-const q Bool)(define-fun dd()Bool(not(= q q(not p))))(assert(not p))(assert q)(assert dd)(check-sat)(get-proof)(((p)(not 5)(q)(= 2 2 1)(not 3))((form 3(not(t 1))(not(t 2))(t 3))(assert 0 1)(assert 1 2)(assert 2 4)(form 4(not(t 4))(not(t 3)))(res 3 4(t 4))(res 0 5(t 3))(res 2 6(t 2))(res 1 7(t 1))))
== Node(1) 1 node 1
(declare-sort U 0)(declare-const a U)(declare-const b U)(declare-fun g(U U)U)(assert(= a b))(assert(not(=(g(g a b)a)(g(g b b)a))))(check-sat)(get-proof)(((a)(b)(or 0 1)(g 0 1)(g 1 1)(g 3 0)(g 4 0)(= 5 6)(not 7))((assert 0 2)(form 2(not(t 2))(s 0 1))(refl 1)(cong 3 4)(refl 0)(cong 5 6)(assert 1 8)(form 8(not(t 8))(not(t 7)))(form 7(t 7)(not(s 5 6)))(res 7 8(not(t 7)))(res 6 9(t 8))(res 5 10(s 5 6))(res 4 11(s 0 0))(res 3 12(s 3 4))(res 2 13(s 1 1))(res 1 14(s 0 1))(res 0 15(t 2))))
== Node(2) 1 node 2
(declare-const p Bool)(declare-const q Bool)(declare-const r Bool)(declare-const s Bool)(assert(not q))(assert(not(=> p q r s)))(check-sat)(get-proof)(((q)(p)(r)(s)(=> 1 0 2 3)(not 0)(not 4))((form 4(t 0)(t 4))(assert 0 5)(form 5(not(t 5))(not(t 0)))(assert 1 6)(form 6(not(t 6))(not(t 4)))(res 3 18446744073709551616(t 6))(res 0 5(t 4))(res 2 6(not(t 0)))(res 1 7(t 5))))
== No(5) 1 no 5
(declare-const x Int)(declare-const y Int)(define-fun dd((k Int))Bool(<= 7 k))(assert(>= 0(div x 7)))(assert(dd x))(check-sat)(get-proof)(((x)(7)(div 0 1)(0)(>= 3 2)(<= 1 0))((euclid 2 1)(assert 0 4)(form 4(not(t 4))(le((1 2))0))(assert 1 5)(form 5(not(t 5))(le(((- 1)0))(- 7)))(farkas(1(not(le((1 0)((- 7)2))6)))(7(not(le((1 2))0)))(1(not(le(((- 1)0))(- 7)))))(res 4 5(le(((- 1)0))(- 7)))(res 5 6(t 5))(res 2 7(le((1 2))0))(res 1 8(t 4))(res 0 9(le((1 0)((- 7)2))6))))
== No(7) 1 no 7
(declare-const p Bool)(declare-const q Bool)(assert q)(assert(xor p q))(assert p)(check-sat)(get-proof)(((q)(p)(xor 1 0))((form 2(not(t 0))(not(t 2))(not(t 1)))(assert 0 0)(assert 1 2)(assert 2 1)(res 3 0(not(t 1)))(res 2 4(t 2))(res 1 5(t 0))))
== No(4) 1 no 4
(declare-sort U 0)(declare-const c0 U)(declare-const c1 U)(declare-const c2 U)(declare-const c3 U)(declare-const c4 U)(assert(distinct c0 c1 c2 c3 c4))(assert(= c1 c2))(check-sat)(get-proof)(((c0)(c1)(c2)(c3)(c4)(distinct 0 1 2 3 4)(= 1 2))((form 5(not(t 5))(not(s 1 2)))(assert 0 5)(assert 1 6)(form 6(not(t 6))(s 1 2))(res 2 3(t 5))(res 0 4(not(s 1 2)))(res 1 5(t 5))))
== No(4) 1 no 4
(declare-const p Bool)(declare-const q Bool)(declare-fun f(Bool)Int)(assert p)(assert q)(assert(not(!(=(f p)(f q)):named nn)))(check-sat)(get-proof)(((p)(q)(f 0)(f 1)(= 2 3)(not 4))((assert 0 0)(assert 1 1)(both 0 1)(cong 2 3)(assert 0 5)(form 5(not(t 5))(not(t 4)))(form 4(t 4)(not(s 2 3)))(res 5 6(not(t 4)))(res 4 7(t 5))(res 3 8(s 2 3))(res 2 9(s 0 1))(res 1 10(t 1))(res 0 11(t 0))))
== No(4) 1 no 4
(check-sat-assuming(false))(get-proof)(((false))((form 0(not(t 0)))(assert 1 0)(res 0 1(not(t 0)))))
== No(1) 1 no 1
(declare-const x Int)(declare-const y Int)(declare-fun f(Int)Int)(assert(>= 0 x))(assert(>= x 0))(assert(not(=(f x)(f 0))))(check-sat)(get-proof)(((x)(0)(>= 1 0)(>= 0 1)(f 0)(f 1)(= 4 5)(not 6))((assert 0 2)(form 2(not(t 2))(le((1 0))0))(assert 1 3)(form 3(not(t 3))(le(((- 1)0))0))(link 0 1 2)(cong 4 5)(assert 2 7)(form 7(not(t 7))(not(t 6)))(form 6(t 6)(not(s 4 5)))(res 7 8(not(t 6)))(res 6 9(t 7))(res 5 10(s 4 5))(res 4 11(s 0 1))(res 3 12(le(((- 1)0))0))(res 2 13(t 3))(res 1 14(le((1 0))0))(res 0 15(t 2))(refl 5)))
== No(18) 1 no 18
(declare-const x Int)(declare-const y Int)(assert(=(*(- 2)y)y))(assert(not(<= y(*(- 2)y))))(check-sat)(get-proof)(((y)(2)(- 1)(* 2 0)(= 3 0)(<= 0 3)(not 5))((link 3 0 1)(assert 0 4)(form 4(not(t 4))(s 3 0))(round(le((3 0))0)0)(assert 1 6)(form 6(not(t 6))(not(t 5)))(form 5(t 5)(not(le((1 0))0)))(res 5 6(not(t 5)))(res 4 7(t 6))(res 3 8(le((1 0))0))(res 0 9(le((3 0))0))(res 2 10(s 3 0))(res 1 11(t 4))))
== No(3) 1 no 3
(declare-const x Int)(declare-const y Int)(assert(= 1 6))(assert(not(<= 1 6)))(check-sat)(get-proof)(((1)(6)(= 0 1)(<= 0 1)(not 3))((link 0 1 2)(assert 0 2)(form 2(not(t 2))(s 0 1))(assert 1 4)(form 4(not(t 4))(not(t 3)))(form 3(t 3)(not(le()5)))(res 4 5(not(t 3)))(res 3 6(t 4))(res 0 7(le()5))(res 2 8(s 0 1))(res 1 9(t 2))))
== No(8) 1 no 8
(set-option :global-declarations true)(push 1)(declare-const p Bool)(declare-const q Bool)(declare-const r Bool)(assert false)(pop 1)(assert p)(assert(not r))(assert(= q r p r))(check-sat)(get-proof)(((p)(r)(q)(= 2 1 0 1)(not 1))((euclid 3 0)(assert 0 0)(assert 1 4)(form 4(not(t 4))(not(t 1)))(assert 2 3)(res 0 4(not(t 3)))(res 3 5(not(t 1)))(res 2 6(t 4))(res 1 7(t 0))))
== No(0) 1 no 0
(declare-const p Bool)(declare-const q Bool)(declare-sort U 0)(declare-fun f(Bool)U)(assert(not p))(assert(not(=(f p)(f false))))(check-sat)(get-proof)(((p)(not 0)(false)(f 0)(f 2)(= 3 4)(not 5))((assert 0 1)(form 1(not(t 1))(not(t 0)))(form 2(not(t 2)))(both 4 0)(none 0 2)(cong 3 4)(assert 1 6)(form 6(not(t 6))(not(t 5)))(form 5(t 5)(not(s 3 4)))(res 6 7(not(t 5)))(res 5 8(t 6))(res 4 9(s 3 4))(res 3 10(s 0 2))(res 2 11(not(t 2)))(res 1 12(not(t 0)))(res 0 13(t 1))))
== No(3) 1 no 3
(declare-const x Int)(assert(<= 4(mod x(- 3))))(check-sat)(get-proof)(((x)(3)(- 1)(div 0 2)(mod 0 2)(4)(<= 5 4))((euclid 4 1)(round(le((2 2))1)2)(euclid 4 2)(assert 0 6)(form 6(not(t 6))(le(((- 1)4))(- 4)))(farkas(1(not(le((1 0)(3 3))2)))(1(not(le(((- 1)0)((- 3)3)(1 4))0)))(1(not(le(((- 1)4))(- 4)))))(res 3 4(le(((- 1)4))(- 4)))(res 2 5(t 6))(res 1 6(le(((- 1)0)((- 3)3)(1 4))0))(res 0 7(le((1 0)(3 3))2))))
== No(1) 1 no 1
(set-option :global-declarations true)(push 1)(declare-sort U 0)(declare-const a U)(declare-const b U)(declare-fun g(U)Bool)(assert false)(pop 1)(assert(= a b))(assert(g a))(assert(not(g b)))(check-sat)(get-proof)(((a)(b)(= 0 1)(g 0)(g 1)(not 4)(g 1))((assert 0 2)(form 2(not(t 2))(s 0 1))(cong 3 4)(truth 3 4)(assert 1 3)(assert 2 5)(form 5(not(t 5))(not(t 4)))(res 5 6(t 5))(res 3 7(t 6))(res 4 8(t 3))(res 2 9(s 3 4))(res 1 10(s 0 1))(res 0 11(t 2))))
== No(8) 1 no 8
(declare-const x Int)(declare-const y Int)(declare-const z Int)(define-fun dd((k Int))Bool(not(< 1(* 3 k))))(assert(>(* 3 z)1))(assert(dd z))(check-sat)(get-proof)(((3)(z)(* 0 1)(1)(> 2 3)(< 3 2)(not 5)(dd))((form 4(not(t 4))(le(((- 1)1))(- 1)))(assert 0 4)(assert 1 6)(form 6(not(t 6))(not(t 5)))(form 5(t 5)(not(le(((- 1)1))(- 1))))(res 3 4(not(t 5)))(res 2 5(t 6))(res 0 6(le(((- 1)1))(- 1)))(res 1 7(t 4))))
== Node(7) 1 node 7
(set-option :global-declarations true)(push 1)(declare-const x Int)(assert false)(pop 1)(assert(>=(mod x 3)4))(check-sat)(get-proof)(((x)(3)(div 0 1)(mod 0 1)(4)(>= 3 4))((euclid 3 1)(euclid 3 2)(assert 0 5)(form 5(not(t 5))(le(((- 1)3))(- 4)))(farkas(1(not(le((1 0)((- 3)2))2)))(1(not(le(((- 1)0)(3 2)(1 3))0)))((/ 1 1000000000000000000000000000000000000000000000)(not(le(((- 1)3))(- 4)))))(res 3 4(le(((- 1)3))(- 4)))(res 2 5(t 5))(res 1 6(le(((- 1)0)(3 2)(1 3))0))(res 0 7(le((1 0)((- 3)2))2))))
== Range(4) 8 range 4
(declare-const x Int)(declare-const y Int)(assert(=(* 5 x)(+(* 5 y)3)))(check-sat)(get-proof)(((5)(x)(* 0 1)(y)(* 0 3)(3)(+ 4 5)(= 2 6))((assert 0 7)(form 7(not(t 7))(s 2 6))(link 2 6 0)(link 2 6 1)(round(le((5 1)((- 5)3))3)5)(round(le(((- 5)1)(5 3))(- 3))5)(farkas(1(not(le((1 1)((- 1)3))0)))(1(not(le(((- 1)1)(1 3))(- 1)))))(res 5 6(le(((- 1)1)(1 3))(- 1)))(res 4 7(le((1 1)((- 1)3))0))(res 3 8(le(((- 5)1)(5 3))(- 3)))(res 2 9(le((5 1)((- 5)3))3))(res 1 10(s 2 6))(farkas(1(not(le()(- 170141183460469231731687303715884105727))))(1(not(le()(- 1))))(1(not(le()170141183460469231731687303715884105727))))(res 0 11(t 7))))
== Range(12) 8 range 12
(declare-const a Int)(declare-const b Int)(declare-const d Int)(declare-fun f(Int)Int)(assert(!(distinct b d a):named nn))(assert(= b a))(check-sat)(get-proof)(((b)(d)(a)(distinct 0 1 2)(= 0 2)(170141183460469231731687303715884105727)(+ 5 5)(f 6)(> 7 5))((form 3(not(t 3))(not(s 0 2)))(assert 0 3)(assert 1 4)(form 4(not(t 4))(s 0 2))(res 2 3(t 4))(res 0 4(not(s 0 2)))(res 1 5(t 3))(link 7 5 0)))
== Range(7) 8 range 7
(declare-const x Int)(declare-const y Int)(declare-const z Int)(assert(>= 3(+(*(- 3)z)(- x)(* 8 y))))(assert(<=(+(* 3 z)x(*(- 8)y))(- 4)))(check-sat)(get-proof)(1())
== NoProof 7 no proof
(declare-const x Int)(push 1)(assert(<= 4(mod x 3)))(pop 1)(check-sat)(get-proof)(((x)(3)(div 0 1)(mod 0 1)(4)(<= 4 3))((euclid 3 1)(euclid 3 2)(assert 0 5)(form 5(not(t 5))(le(((- 1)3))(- 4)))(farkas(1(not(le((1 0)((- 3)2))2)))(1(not(le(((- 1)0)(3 2)(1 3))0)))(1(not(le(((- 1)3))(- 4)))))(res 3 4(le(((- 1)3))(- 4)))(res 2 5(t 5))(res 1 6(le(((- 1)0)(3 2)(1 3))0))(res 0 7(le((1 0)((- 3)2))2))))
== No(2) 1 no 2
(declare-const x Int)(check-sat-assuming((<=(mod x(- 2))(- 2))))(get-proof)(((x)(2)(- 1)(div 0 2)(mod 0 2)(<= 4 2))((euclid 4 2)(euclid 4 3)(assert 0 5)(form 5(not(t 5))(le((1 4))(- 2)))(farkas(1(not(le(((- 1)0)((- 2)3))0)))(1(not(le((1 0)(2 3)((- 1)4))0)))(1(not(le((1 4))(- 2)))))(res 3 4(le((1 4))(- 2)))(res 2 5(t 5))(res 1 6(le((1 0)(2 3)((- 1)4))0))(res 0 7(le(((- 1)0)((- 2)3))0))))
== No(8) 1 no 8
(declare-const x Int)(declare-const y Int)(assert(<=(div x 170141183460469231731687303715884105727)(- 1)))(assert(<= 0 x))(check-sat)(get-proof)(((x)(170141183460469231731687303715884105727)(div 0 1)(1)(- 3)(<= 2 4)(0)(<= 6 0))((euclid 2 2)(assert 0 5)(form 5(not(t 5))(le((1 2))(- 1)))(assert 1 7)(form 7(not(t 7))(le(((- 1)0))0))(farkas(1(not(le((1 0)((- 170141183460469231731687303715884105727)2))170141183460469231731687303715884105726)))(170141183460469231731687303715884105727(not(le((1 2))(- 1))))(1(not(le(((- 1)0))0))))(res 4 5(le(((- 1)0))0))(res 3 6(t 7))(res 2 7(le((1 2))(- 1)))(res 1 8(t 5))(res 0 9(le((1 0)((- 170141183460469231731687303715884105727)2))170141183460469231731687303715884105726))))
== No(0) 1 no 0
(declare-const x Int)(assert((_ divisible 2)x))(assert(>= x(- 5)))(assert(>=(- 5)x))(check-sat)(get-proof)(((x)((_ divisible 2)0)(5)(- 2)(>= 0 3)(>= 3 0)(2)(- 0 6))((assert 0 1)(assert 1 4)(form 4(not(t 4))(le(((- 1)0))5))(assert 2 5)(form 5(not(t 5))(le((1 0))(- 5)))(euclid 1 0)(euclid 1 3)(farkas(1(not(le(((- 1)0)(2 7))0)))(1(not(le((1 0))(- 5))))(2(le((1 7))(- 3))))(farkas(1(not(le((1 0)((- 2)7))0)))(1(not(le(((- 1)0))5)))(2(not(le((1 7))(- 3)))))(res 7 8(le((1 7))(- 3)))(res 6 9(le((1 0)((- 2)7))0))(res 5 10(le(((- 1)0)(2 7))0))(res 4 11(le((1 0))(- 5)))(res 3 12(t 5))(res 2 13(le(((- 1)0))5))(res 1 14(t 4))(res 0 15(t 1))))
== No(5) 1 no 5
(set-option :global-declarations true)(push 1)(declare-const x Int)(assert false)(pop 1)(assert(<(abs x)(- x)))(check-sat)(get-proof)(((x)(abs 0)(- 0)(< 1 2))((euclid 2 1)(assert 0 3)(form 3(not(t 3))(le((1 0)(1 1))(- 1)))(farkas(1(not(le(((- 1)0)((- 1)1))0)))(1(not(le((1 0)(1 1))(- 1)))))(res 2 3(le((1 0)(1 1))(- 1)))(res 1 4(t 3))(res 0 5(le(((- 1)0)((- 1)1))0))))
== No(0) 1 no 0
(declare-const a Int)(declare-const b Int)(declare-fun g(Int Int)Int)(push 1)(push 2)(assert(= a b))(push 1)(assert false)(pop 1)(assert(not(=(g a b)(g b b))))(check-sat)(get-proof)(((a)(b)(= 0 1)(g 0 1)(g 1 1)(= 3 4)(not 5)(170141183460469231731687303715884105727)(- 7)(div 8 7)(+ 7 7)(abs 10)(mod 10 7)(div 10 7)((_ divisible 3)10)(3)(div 10 15)(abs 7))((assert 0 2)(form 2(not(t 2))(s 0 1))(refl 1)(cong 3 4)(assert 1 6)(form 6(not(t 6))(not(t 5)))(form 5(t 5)(not(s 3 4)))(res 5 6(not(t 5)))(res 4 7(t 6))(res 3 8(s 3 4))(res 2 9(s 1 1))(res 1 10(s 0 1))(euclid 11 0)(res 0 11(t 2))))
== Range(12) 8 range 12
(declare-const x Int)(assert(>=(- 3)(div x 2 4)))(assert(<=(- 16)x))(check-sat)(get-proof)(((x)(2)(div 0 1)(4)(div 0 1 3)(3)(- 5)(>= 6 4)(16)(- 8)(<= 9 0))((euclid 2 1)(euclid 4 1)(assert 0 7)(form 7(not(t 7))(le((1 4))(- 3)))(assert 1 10)(form 10(not(t 10))(le(((- 1)0))16))(farkas(1(not(le((1 0)((- 2)2))1)))(2(not(le((1 2)((- 4)4))3)))((/ 0 1)(not(le((1 4))(- 3))))(1(not(le(((- 1)0))16))))(res 5 6(le(((- 1)0))16))(res 4 7(t 10))(res 3 8(le((1 4))(- 3)))(res 2 9(t 7))(res 1 10(le((1 2)((- 4)4))3))(res 0 11(le((1 0)((- 2)2))1))))
== No(6) 1 no 6
(declare-const x Int)(assert((_ divisible 2)x))(assert(>= x 1))(assert(>= 1 x))(check-sat)(get-proof)(((x)((_ divisible 2)0)(1)(>= 0 2)(>= 2 0)(2)(div 0 5))((assert 0 1)(assert 1 3)(form 3(not(t 3))(le(((- 1)0))(- 1)))(assert 2 4)(form 4(not(t 4))(le((1 0))1))(euclid 1 0)(euclid 1 3)(farkas(1(not(le(((- 1)0)(2 6))0)))(1(not(le((1 0))1)))(2(le((1 6))0)))(farkas(1(not(le((1 0)((- 2)6))0)))(1(not(le(((- 1)0))(- 1))))(2(not(le((1 6))0))))(res 7 8(le((1 6))0))(res 6 9(le((1 0)((- 2)6))0))(res 5 10(le(((- 1)0)(2 6)((- 1)0))0))(res 4 11(le((1 0))1))(res 3 12(t 4))(res 2 13(le(((- 1)0))(- 1)))(res 1 14(t 3))(res 0 15(t 1))))
== No(11) 1 no 11
(declare-const p Bool)(declare-const q Bool)(declare-const r Bool)(declare-const s Bool)(declare-const u Bool)(assert(not(or p q r s u)))(assert r)(check-sat)(get-proof)((((true))(p)(q)(r)(s)(u)(or 0 1 2 3 4)(not 5))((form 5(t 5)(not(t 2)))(assert 0 6)(form 6(not(t 6))(not(t 5)))(assert 1 2)(res 0 3(not(t 2)))(res 2 4(not(t 5)))(res 1 5(t 6))))
== Node(0) 1 node 0
(declare-const x Int)(declare-const y Int)(assert(= x y))(assert((_ divisible 5)x))(assert(not((_ divisible 5)y)))(check-sat)(get-proof)(((x)(y)(= 0 1)((_ divisible 5)6)((_ divisible 5)1)(not 4))((assert 0 2)(form 2(not(t 2))(s 0 1))(cong 3 4)(truth 3 4)(assert 1 3)(assert 2 5)(form 5(not(t 5))(not(t 4)))(res 5 6(t 5))(res 3 7(t 4))(res 4 8(t 3))(res 2 9(s 3 4))(res 1 10(s 0 1))(res 0 11(t 2))))
== Node(3) 1 node 3
(assert false)(reset)(declare-const p Bool)(declare-const q Bool)(get-model)(assert(or(not p)q))(assert(or p q))(assert(or(not p)(not q)))(assert(or p(not q)))(check-sat)()(get-proof)(((p)(not 0)(q)(or 1 2)(or 0 2)(not 2)(or 1 5)(or 0 5))((assert 0 3)(form 3(not(t 3))(t 1)(t 2))(form 0.0(not(t 1))(not(t 0)))(assert 1 4)(form 4(not(t 4))(t 0)(t 2))(assert 2 6)(form 6(not(t 6))(t 1)(t 5))(form 5(not(t 5))(not(t 2)))(assert 3 7)(form 7(not(t 7))(t 0)(t 5))(res 7 9(not(t 5)))(res 4 10(t 2))(res 2 11(not(t 0)))(res 6 7(t 5))(res 1 13(t 2))(res 14 12(t 1))(res 8 15(t 7))(res 5 16(t 6))(res 3 17(t 4))(res 0 18(t 3))))
== No(2) 1 no 2
(declare-const x Int)(declare-const y Int)(declare-const z Int)(push 2)(assert(<(+ y 1)(+ x 7)))(push 1)(assert false)(pop 1)(assert(not(>(+ x 7)(+ y 1))))(check-sat)(get-proof)(((y)(1)(+ 0 1)(x)(7)(+ 3 4)(< 2 5)(> 5 2)(not 7))((form 6(not(t 6))(le((1 0)((- 1)3))5))(assert 0 6)(assert 1 8)(form 8(not(t 8))(not(t 7)))(form 7(t 7)(not(le((1 0)((- 1)3))5)))(truth 4 4)(res 3 4(not(t 7)))(res 2 5(t 8))(res 0 6(le((1 0)((- 1)3))5))(res 1 7(t 6))))
== No(5) 1 no 5
(declare-const p Bool)(declare-const q Bool)(declare-sort U 0)(declare-fun f(Bool)U)(assert p)(assert q)(assert(not(=(f p)(f q))))(check-sat)(get-proof)(((p)(q)(f 0)(f 1)(= 2 3)(not 4))((assert 0 0)(form 0(t 0)(not(le()(- 170141183460469231731687303715884105728))))(assert 1 1)(both 0 1)(cong 2 3)(assert 2 5)(form 5(not(t 5))(not(t 4)))(form 4(t 4)(not(s 2 3)))(res 5 6(not(t 4)))(res 4 7(t 5))(res 3 8(s 2 3))(res 2 9(s 0 1))(res 1 10(t 1))(res 0 11(t 0))))
== Range(1) 8 range 1
(declare-const q Bool)(assert(not q))(assert(let((k q))(or k k)))(check-sat)(get-proof)(((q)(or 0 0)(not 0))((form 1(t 0)(not(t 1)))(assert 0 2)(form 2(not(t 2))(not(t 0)))(assert 1 1)(res 0 3(not(t 1)))(res 2 4(not(t 0)))(farkas((/ 1 85070591730234615865843651857942052864)(not(le()(- 1))))((/ 1 85070591730234615865843651857942052863)(not(le()(- 1)))))(res 1 5(t 2))))
== Range(6) 8 range 6
(declare-const p Bool)(declare-const q Bool)(declare-fun f(Bool)Int)(assert p)(assert q)(assert(not(=(f p)(f q))))(check-sat)get-proof(((p)(q)(f 0)(f 1)(= 2 3)(not 4))((assert 0 0)(assert 1 1)(both 0 1)(cong 2 3)(assert 2 5)(form 5(not(t 5))(not(t 4)))(form 4(t 4)(not(s 2 3)))(res 5 6(not(t 4)))(res 4 7(t 5))(res 3 8(s 2 3))(res 2 9(s 0 1))(res 1 10(t 1))(res 0 11(t 0))))
== NoProof 7 no proof
(declare-const x Int)(declare-const y Int)(assert(<=(div x 4)0))(check-sat-assuming((>= x 4)))(check-sat)(get-proof)(((x)(4)(div 0 1)(0)(<= 2 3)(>= 0 1))((euclid 2 1)(assert 0 4)(form 4(not(t 4))(le((1 2))0))(assert 1 5)(form 5(not(t 5))(le(((- 1)0))(- 4)))(farkas(1(not(le((1 0)((- 4)2))3)))(4(not(le((1 2))0)))(1(not(le(((- 1)0))(- 4)))))(res 4 5(le(((- 1)0))(- 4)))(res 3 6(t 5))(res 2 7(le((1 2))0))(res 1 8(t 4))(res 0 9(le((1 0)((- 4)2))3))))
== No(3) 1 no 3
(declare-const x Int)(declare-const y Int)(assert(>=(- 2)(* 8 y)))(assert(>= 0(- y)))(check-sat)(get-proof)(((y)(2)(- 1)(8)(* 3 0)(>= 2 4)(0)(- 0)(>= 6 7)(x 5))((assert 0 5)(form 5(not(t 5))(le((1 0))(- 1)))(assert 1 8)(form 8(not(t 8))(le(((- 1)0))0))(farkas((/ 1 3)(not(le(((- 1)0))0)))((/ 1 3)(not(le((1 0))(- 1)))))(res 3 4(le(((- 1)0))0))(res 2 5(t 8))(res 1 6(le((1 0))(- 1)))(res 0 7(t 5))))
== Node(9) 1 node 9
(set-option :global-declarations true)(push 1)(assert false)(pop 1)(assert(not true))(check-sat)(get-proof)(((true)(not 0))((form 0(t 0))(assert 0 1)(form 1(not(t 1))(not(t 0)))(res 1 2(s 0 0 0))(res 0 3(t 0))))
== No(3) 1 no 3
(set-option :global-declarations true)(push 1)(assert false)(pop 1)(assert false)(check-sat)(get-proof)(((false)(170141183460469231731687303715884105727)(85070591730234615865843651857942052864)(1)(+ 1 3)(= 4 4))((form 0(not(t 0)))(assert 0 0)(link 4 4 2)(res 0 1(not(t 0)))))
== Range(2) 8 range 2
(declare-const p Bool)(declare-const q Bool)(assert(not(=> p q p)))(check-sat)(get-proof)(assert false)(check-sat)(get-proof)(((p)(q)(=> 0 1 0)(not 2))((form 2(t 2))(assert 0 3)(form 3(not(t 3))(not(t 2)))(res 1 2(t 3))(res 0 3(t 2))))
== NoProof 7 no proof
(declare-const x Int)(assert(<= 3(mod x(- 3))))(check-sat)(get-proof)(((x)(3)(- 1)(div 0 2)(mod 0 2)(<= 1 4)((_ divisible 3 3)4))((euclid 4 1)(euclid 4 2)(assert 0 5)(form 5(not(t 5))(le(((- 1)4))(- 3)))(farkas(1(not(le((1 0)(3 3))2)))(1(not(le(((- 1)0)((- 3)3)(1 4))0)))(1(not(le(((- 1)4))(- 3)))))(res 3 4(le(((- 1)4))(- 3)))(res 2 5(t 5))(res 1 6(le(((- 1)0)((- 3)3)(1 4))0))(res 0 7(le((1 0)(3 3))2))))
== Node(6) 1 node 6
(declare-const p Bool)(declare-const q Bool)(declare-const r Bool)(assert(not q))(assert(ite p r q))(assert(not p))(check-sat)(get-proof)(((q)(p)(r)(ite 1 2 0)(not 0)(not 1))((form 3(t 0)(not(t 3))(t 1))(assert 0 4)(form 4(not(t 4))(not(t 0)))(assert 1 3)(assert 2 5)(assert 0)(res 4 5(t 5))(res 0 6(t 1))(res 3 7(t 3))(res 2 8(not(t 0)))(res 1 9(t 4))))
== No(5) 1 no 5
(declare-const x Int)(assert(>= x 170141183460469231731687303715884105727))(assert(< x 170141183460469231731687303715884105727))(check-sat)(push 1)(get-proof)(((x)(170141183460469231731687303715884105727)(>= 0 1)(< 0 1))((assert 0 2)(form 2(not(t 2))(le(((- 1)0))(- 170141183460469231731687303715884105727)))(assert 1 3)(form 3(not(t 3))(le((1 0))170141183460469231731687303715884105726))(farkas(1(not(le(((- 1)0))(- 170141183460469231731687303715884105727))))(1(not(le((1 0))170141183460469231731687303715884105726))))(res 3 4(le((1 0))170141183460469231731687303715884105726))(res 2 5(t 3))(res 1 6(le(((- 1)0))(- 170141183460469231731687303715884105727)))(res 0 7(t 2))))
== NoProof 7 no proof
(declare-const x Int)(declare-const y Int)(assert(>= 1 1))(assert(not(<= 1 1)))(check-sat)(get-proof)(((1)(>= 0 0)(<= 0 0)(not 2)(0)(2)(+ 5 5)(- 4)(* 5 5)(- 5)(- 9)(div 0 5 10))((form 1(not(t 1))(le()0))(assert 0 1)(assert 1 3)(form 3(not(t 3))(not(t 2)))(form 2(t 2)(not(le()0)))(res 3 4(not(t 2)))(res 2 5(t 3))(res 0 6(le()0))(res 1 7(t 1))))
== Node(11) 1 node 11
(declare-const x Int)(assert(<=(div x 3 4)2))(assert(<= 36 x))(check)(get-proof)(((x)(3)(div 0 1)(4)(div 0 1 3)(2)(<= 4 5)(36)(<= 7 0))((euclid 2 1)(euclid 4 1)(assert 0 6)(form 6(not(t 6))(le((1 4))2))(assert 1 8)(form 8(not(t 8))(le(((- 1)0))(- 36)))(farkas(1(not(le((1 0)((- 3)2))2)))(3(not(le((1 2)((- 4)4))3)))(12(not(le((1 4))2)))(1(not(le(((- 1)0))(- 36)))))(res 5 6(le(((- 1)0))(- 36)))(res 4 7(t 8))(res 3 8(le((1 4))2))(res 2 9(t 6))(res 1 10(le((1 2)((- 4)4))3))(res 0 11(le((1 0)((- 3)2))2))))
== NoProof 7 no proof
(declare-const a Int)(declare-const b Int)(declare-const c Int)(declare-const d Int)(assert(not(!(= a b c d):named nn)))(assert(= a b))(assert(= b c))(assert(= c d))(check-sat)(get-proof)(((a)(b)(c)(d)(= 0 1 2 3)(not 4)(= 0 1)(= 1 2)(= 2 3)(>= 3 4))((form 4(t 4)(not(s 0 1))(not(s 1 2))(not(s 2 3)))(assert 0 5)(form 5(not(t 5))(not(t 4)))(assert 1 6)(form 6(not(t 6))(s 0 1))(assert 2 7)(form 7(not(t 7))(s 1 2))(assert 3 8)(form 8(not(t 8))(s 2 3))(res 7 8(t 8))(res 0 9(not(s 2 3)))(res 6 10(s 1 2))(res 5 11(t 7))(res 4 12(s 0 1))(res 3 13(t 6))(res 2 14(not(t 4)))(res 1 15(t 5))))
== Node(9) 1 node 9
(declare-const p Bool)(declare-const q Bool)(declare-const r Bool)(declare-const s Bool)(declare-const u Bool)(declare-const v Bool)(assert(not(=> p q r s u v)))(assert(not p))(check-sat)(get-proof)(((p)(q)(r)(s)(u)(v)(=> 0 1 2 3 4 5)(not 6)(not 0))((form 6(t 6)(t 0))(assert 0 7)(form 7(not(t 7)))(assert 1 8)(form 8(not(t 8))(not(t 0)))(res 3 4(t 8))(res 0 5(t 0))(res 2 6(not(t 6)))(res 1 7(t 7))))
== No(2) 1 no 2
(declare-const x Int)(assert(<=(div x 5 3)(- 2)))(assert(<=(- 15)x))(check-sat)(get-proof)(((x)(5)(div 0 1)(3)(div 0 1 3)(2)(- 5)(<= 4 6)(15)(- 8)(<= 9 0))((euclid 2 1)(euclid 4 1)(assert 0 7)(form 7(not(t 7))(le((1 4))(- 2)))(assert 1 10)(form 10(not(t 10))(le(((- 1)0))15))(farkas(1(not(le((1 0)((- 5)2))4)))(15(not(le((1 4))(- 2))))(1(not(le(((- 1)0))15))))(res 5 6(le(((- 1)0))15))(res 4 7(t 10))(res 3 8(le((1 4))(- 2)))(res 2 9(t 7))(res 1 10(le((1 2)((- 3)4))2))(res 0 11(le((1 0)((- 5)2))4))))
== No(6) 1 no 6
(declare-sort U 0)(declare-const a U)(declare-const b U)(declare-fun g(U)Bool)(assert(= a b))(assert(g a))(assert(not(g b)))(check-sat)(get-proof)(((a)(b)(= 0 1)(g 0)(g 1)(not 4))((assert 0 2)(form 2(not(t 2))(s 0 1))(cong 3 4)(truth 3 4)(assert 1 3)(assert 2 5)(form 5(t 2)(not(t 5))(not(t 4)))(res 5 6(t 5))(res 3 7(t 4))(res 4 8(t 3))(res 2 9(s 3 4))(res 1 10(s 0 1))(res 0 11(t 2))))
== No(6) 1 no 6
(declare-const x Int)(assert(<(abs x)x))(check-sat)(get-proof)(((x)(abs 0)(< 1 0))((euclid 1 0)(assert 0 2)(form 2(not(t 2))(le(((- 1)0)(1 1))(- 1)))(farkas(1(not(le((1 0)((- 1)1))0)))(1(le(((- 1)0)(1 1))(- 1))))(res 2 3(le(((- 1)0)(1 1))(- 1)))(res 1 4(t 2))(res 0 5(le((1 0)((- 1)1))0))))
== No(3) 1 no 3
(declare-const x Int)(declare-const y Int)(check-sat-assuming((=(* 3 x)(+(* 3 y)2))))(get-proof)(((3)(x)(* 0 1)(y)(* 0 3)(2)(+ 4 5)(= 2 6))((assert 0 7)(form 7(not(t 7))(s 2 6))(link 2 6 0)(link 2 6 1)(round(le((3 1)((- 3)3))2)3)(round(not(le(((- 3)1)(3 3))(- 2)))3)(farkas(1(not(le((1 1)((- 1)3))0)))(1(not(le(((- 1)1)(1 3))(- 1)))))(res 5 6(le(((- 1)1)(1 3))(- 1)))(res 4 7(le((1 1)((- 1)3))0))(res 3 8(le(((- 3)1)(3 3))(- 2)))(res 2 9(le((3 1)((- 3)3))2))(res 1 10(s 2 6))(res 0 11(t 7))))
== No(5) 1 no 5
(assert(< 170141183460469231731687303715884105726 170141183460469231731687303715884105726))(check-sat)(get-proof)(((170141183460469231731687303715884105726)(< 0 0))((assert 0 1)(form 1(not(t 1))(le()(- 1)))(farkas((/(- 1)2)(not(le()(- 1)))))(res 1 2(le()(- 1)))(res 0 3(t 1))))
== No(2) 1 no 2
(declare-const x Int)(declare-const y Int)(assert(= x y))(assert(not(!(<= x y):named nn)))(check-sat)(get-proof)(((x)(y)(= 0 1)(<= 0 1)(not 3))((link 0 1 0)(assert 0 2)(form 2(not(t 2))(s 0 1))(assert 1 4)(form 4(not(t 4))(not(t 3)))(form 3(t 3)(not(le((1 2)((- 1)1))0)))(res 4 5(not(t 3)))(res 3 6(t 4))(res 0 7(le((1 0)((- 1)1))0))(res 2 8(s 0 1))(res 1 9(t 2))))
== No(5) 1 no 5
(declare-const x Int)(declare-const y Int)(assert(= 1(+ x 8)))(assert(not(<= 1(+ x 8))))(check-sat)(get-proof)(((x)(1)(8)(+ 0 2)(= 1 3)(<= 1 3)(not 5)(* 3 3 3))((link 1 3 0)(assert 0 4)(form 4(not(t 4))(s 1 3))(assert 1 6)(form 6(not(t 6))(not(t 5)))(form 5(t 5)(not(le(((- 1)0))7)))(res 4 5(not(t 5)))(res 3 6(t 6))(res 0 7(le(((- 1)0))7))(res 2 8(s 1 3))(res 1 9(t 4))))
== Node(7) 1 node 7
(declare-const p Bool)(declare-const q Bool)(declare-const r Bool)(assert(or(not q)r))(assert(or(not p)r))(assert(or p q))(assert(not r))(check-sat)(get-proof)(((q)(not 0)(r)(or 3 2)(p)(not 4)(or 5 2)(or 4 0)(not 2))((assert 0 3)(form 3(not(t 3))(t 1)(t 2))(form 1(not(t 1))(not(t 0)))(assert 1 6)(form 6(not(t 6))(t 5)(t 2))(form 5(not(t 5))(not(t 4)))(assert 2 7)(form 7(not(t 7))(t 4)(t 0))(assert 3 8)(form 8(not(t 8))(not(t 2)))(res 5 7(not(t 4)))(res 4 10(t 5))(res 2 11(not(t 0)))(res 1 12(t 1))(res 9 13(not(t 2)))(res 8 14(t 8))(res 6 15(t 7))(res 3 16(t 6))(res 0 17(t 3))))
== Node(3) 1 node 3
(set-option :global-declarations true)(push 1)(declare-const x Int)(declare-const y Int)(assert false)(pop 1)(assert(=(+(* 2 y)1)(* 2 x)))(check-sat)(get-proof)(((2)(y)(* 0 1)(1)(+ 2 3)(and)(* 0 5)(= 4 6))((assert 0 7)(form 7(not(t 7))(s 4 6))(link 4 6 0)(link 4 6 1)(round(le((2 1)((- 2)5))(- 1))2)(round(le(((- 2)1)(2 5))1)2)(farkas(1(not(le((1 1)((- 1)5))(- 1))))(1(not(le(((- 1)1)(1 5))0))))(res 5 6(le(((- 1)1)(1 5))0))(res 4 7(le((1 1)((- 1)5))(- 1)))(res 3 8(le(((- 2)1)(2 5))1))(res 2 9(le((2 1)((- 2)5))(- 1)))(res 1 10(s 4 6))(res 0 11(t 7))))
== Node(5) 1 node 5
(declare-const x Int)(assert(not((_ divisible 3)x)))(assert(>= x 9))(assert(>= 9 x))(check-sat)(get-proof)(((x)((_ divisible 3)0)(not 1)(9)(>= 0 3)(>= 3 0)(3)(div 0 6))((assert 0 2)(form 2(not(t 2))(not(t 1)))(assert 1 4)(form 4(not(t 4))(le(((- 1)0))(- 9)))(assert 2 5)(form 5(not(t 5))(le((1 0))9))(euclid 1 1)(euclid 1 2)(farkas(1(not(le(((- 1)0)(3 7))(- 1))))(1(not(le((1 0))9)))(3(le((1 7))2)))(farkas(1(not(le((1 0)((- 3)7))2)))(1(not(le(((- 1)0))(- 9))))(3(not(le((1 7))2))))(res 8 9(le((1 7))2))(res 7 10(le(((- 1)0)(3 7))(- 1)))(res 6 11(le((1 0)((- 3)7))2))(res 5 12(le((1 0))9))(res 4 13(t 5))(res 16 14(le(((- 1)0))(- 9)))(res 2 15(t 4))(res 1 16(not(t 1)))(res 0 17(t 2))))
== No(15) 1 no 15
(declare-const a Int)(declare-const b Int)(assert(= b a))(check-sat-assuming((not(= a b))))(get-proof)(((b)(a)(= 0 1)(= 1 0)(not 3))((assert 0 2)(form 2(not(t 2))(s 0 1))(sym 0 1)(assert 1 4)(form 4(not(t 4))(not(t 3)))(form 3(t 3)(not(s 1 0)))(res 4 5(not(t 3)))(res 3 6(t 4))(res 1 7(s 1 0))(res 1 8(s 0 1))(res 0 9(t 2))))
== No(8) 1 no 8";

/// What is found of a script, the status, and what is written.
fn told(alloc: Global, script: &[u8]) -> Result<Vec<u8>, AllocError> {
    let (ended, written) = outcome(alloc, "smt_check", script, 1 << 20, calm(4096))?;
    let text = match ended.found {
        Some(found) => format!(in alloc; "{found:?} {} ", ended.status)?,
        None => String::new(alloc),
    };
    let mut told = text.as_bytes().to_vec(alloc)?;
    told.extend_from_slice(&written)?;
    Ok(told)
}

/// Compares what is found of each script with the line behind it, and says how many there are.
fn check_rows(rt: &impl Abort, alloc: Global, rows: &[u8]) -> Result<usize, Fail> {
    let mut script = Vec::new(alloc);
    let mut count: usize = 0;
    for line in rows.split(|byte| *byte == b'\n') {
        if line.len() < 3 || &line[..3] != b"== ".as_slice() {
            script.extend_from_slice(line)?;
            script.push(b'\n')?;
            continue;
        }
        // the end of the line before it is none of the script's
        let _ = script.pop();
        let mut wanted = line[3..].to_vec(alloc)?;
        wanted.push(b'\n')?;
        assert_eq!(rt; told(alloc, &script)?.as_slice(), wanted.as_slice());
        script.clear();
        count = count.saturating_add(1);
    }
    Ok(count)
}

#[test]
fn judges_rows(rt: HostRuntime) -> Result<(), Fail> {
    assert_eq!(rt; check_rows(&rt, rt.alloc(), ROWS)?, COUNT);
    Ok(())
}
