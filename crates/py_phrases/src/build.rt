ghost use Rattle.std.specs.Prelude.{◌≡◌, ◌++◌, [], ◌∷◌, reverse, OnOk, IfOk};
ghost use Rattle.std.specs.Option.{ForSome};
ghost use Rattle.py_tree.specs.Joined.{expression_of, expressions_of, pair_of, keyword_of, keywords_of};
ghost use Rattle.py_tree.specs.Syntax as x;
ghost use Rattle.py_phrases.specs.Emitted as m;
ghost use Rattle.py_phrases.specs.Stacks.{trees_of, taken, taken_pairs, taken_keywords, pair_top, below_pair, keyword_in, maybe_pair, binary_of, BuildsTop};
ghost use Rattle.py_phrases.specs.Views.{step_of, steps_of, top, rest};

use crate::machine::Step;
use lists::Items;
use py_tree::expression::{Call, Expr, Exprs, Keyword, Keywords, Pair, Pairs};
use py_tree::operator::{BinaryOp, CompareOp, Const, UnaryOp};
use py_tree::text::Text;
use sqlite_items::Boxed;
use std::alloc::{AllocError, Global};

fn put(trees: &mut Vec<Expr>, tree: Expr) -> Result<(), AllocError>
    ensures { OnOk result (trees_of trees.new.items ≡ expression_of tree ∷ trees_of trees.old.items) }
{
    trees.push(tree)?;
    Ok(())
}

fn put_name(alloc: Global, trees: &mut Vec<Expr>, name: &Text) -> Result<(), AllocError>
    ensures { OnOk result (trees_of trees.new.items ≡ x.Name name.now ∷ trees_of trees.old.items) }
{
    put(trees, Expr::Name(name.copy(alloc)?))
}

fn put_text(alloc: Global, trees: &mut Vec<Expr>, text: &Text) -> Result<(), AllocError>
    ensures { OnOk result (trees_of trees.new.items ≡ x.Str text.now ∷ trees_of trees.old.items) }
{
    put(trees, Expr::Str(text.copy(alloc)?))
}

fn put_constant(trees: &mut Vec<Expr>, constant: Const) -> Result<(), AllocError>
    ensures { OnOk result (trees_of trees.new.items ≡ m.constant_tree constant ∷ trees_of trees.old.items) }
{
    match constant {
        Const::Nil => put(trees, Expr::Nil),
        Const::True => put(trees, Expr::True),
        Const::False => put(trees, Expr::False),
    }
}

/// The first text and then the second.
fn joined(first: Text, second: &Text) -> Result<Text, AllocError>
    ensures { IfOk result (λ text. text ≡ first ++ second.now) }
{
    let mut text = first;
    text.append(second)?;
    Ok(text)
}

fn join_text(trees: &mut Vec<Expr>, text: &Text) -> Result<(), AllocError>
    ensures { OnOk result (trees_of trees.new.items ≡ m.on_one (m.join_text text.now) (trees_of trees.old.items)) }
{
    match trees.pop() {
        Some(Expr::Str(first)) => put(trees, Expr::Str(joined(first, text)?)),
        Some(tree) => put(trees, tree),
        None => Ok(()),
    }
}

fn make_unary(alloc: Global, trees: &mut Vec<Expr>, op: UnaryOp) -> Result<(), AllocError>
    ensures { OnOk result (trees_of trees.new.items ≡ m.on_one (x.Unary op) (trees_of trees.old.items)) }
{
    match trees.pop() {
        Some(e) => put(trees, Expr::Unary(op, Boxed::new(alloc, e)?)),
        None => Ok(()),
    }
}

fn make_is(
    alloc: Global,
    trees: &mut Vec<Expr>,
    negated: bool,
    right: Const,
) -> Result<(), AllocError>
    ensures { OnOk result (trees_of trees.new.items ≡ m.on_one (λ e. x.Is negated e right) (trees_of trees.old.items)) }
{
    match trees.pop() {
        Some(left) => put(
            trees,
            Expr::Is {
                negated,
                left: Boxed::new(alloc, left)?,
                right,
            },
        ),
        None => Ok(()),
    }
}

fn make_not(alloc: Global, trees: &mut Vec<Expr>) -> Result<(), AllocError>
    ensures { OnOk result (trees_of trees.new.items ≡ m.on_one x.Not (trees_of trees.old.items)) }
{
    match trees.pop() {
        Some(e) => put(trees, Expr::Not(Boxed::new(alloc, e)?)),
        None => Ok(()),
    }
}

fn make_attr(alloc: Global, trees: &mut Vec<Expr>, name: &Text) -> Result<(), AllocError>
    ensures { OnOk result (trees_of trees.new.items ≡ m.on_one (λ e. x.Attr e name.now) (trees_of trees.old.items)) }
{
    match trees.pop() {
        Some(e) => put(trees, Expr::Attr(Boxed::new(alloc, e)?, name.copy(alloc)?)),
        None => Ok(()),
    }
}

/// A node with a left and a right tree, without them.
#[derive(Clone, Copy)]
enum BinaryNode {
    Binary(BinaryOp),
    Compare(CompareOp),
    And,
    Or,
    Index,
}

impl BinaryNode {
    fn with(self, alloc: Global, left: Expr, right: Expr) -> Result<Expr, AllocError>
        ensures { IfOk result (λ tree. expression_of tree ≡ binary_of self (expression_of left) (expression_of right)) }
    {
        let left = Boxed::new(alloc, left)?;
        let right = Boxed::new(alloc, right)?;
        Ok(match self {
            BinaryNode::Binary(op) => Expr::Binary(op, left, right),
            BinaryNode::Compare(op) => Expr::Compare(op, left, right),
            BinaryNode::And => Expr::And(left, right),
            BinaryNode::Or => Expr::Or(left, right),
            BinaryNode::Index => Expr::Index(left, right),
        })
    }
}

fn make_binary(alloc: Global, trees: &mut Vec<Expr>, node: BinaryNode) -> Result<(), AllocError>
    ensures { OnOk result (trees_of trees.new.items ≡ m.on_two (binary_of node) (trees_of trees.old.items)) }
{
    let Some(right) = trees.pop() else {
        return Ok(());
    };
    let Some(left) = trees.pop() else {
        return Ok(());
    };
    put(trees, node.with(alloc, left, right)?)
}

/// A conditional from its parts.
fn conditional(alloc: Global, yes: Expr, test: Expr, no: Expr) -> Result<Expr, AllocError>
    ensures { IfOk result (λ tree. expression_of tree ≡ x.Cond (expression_of test) (expression_of yes) (expression_of no)) }
{
    Ok(Expr::Cond {
        test: Boxed::new(alloc, test)?,
        yes: Boxed::new(alloc, yes)?,
        no: Boxed::new(alloc, no)?,
    })
}

fn make_cond(alloc: Global, trees: &mut Vec<Expr>) -> Result<(), AllocError>
    ensures { OnOk result (trees_of trees.new.items ≡ m.on_three (λ a b c. x.Cond b a c) (trees_of trees.old.items)) }
{
    let Some(no) = trees.pop() else {
        return Ok(());
    };
    let Some(test) = trees.pop() else {
        return Ok(());
    };
    let Some(yes) = trees.pop() else {
        return Ok(());
    };
    put(trees, conditional(alloc, yes, test, no)?)
}

fn take_top(trees: &mut Vec<Expr>) -> Option<Expr>
    ensures top { result ≡ top (reverse trees.old.items) }
    ensures rest { reverse trees.new.items ≡ rest (reverse trees.old.items) }
{
    trees.pop()
}

/// The newest trees, by their number.
#[tactic(auto, using(crate::proofs::Taking::items_end))]
fn take_items(
    alloc: Global,
    trees: &mut Vec<Expr>,
    count: usize,
) -> Result<Option<Exprs>, AllocError>
    ensures { IfOk result (λ found. taken found trees.new.items ≡ m.take_items count x.end_of_expressions (trees_of trees.old.items)) }
{
    let mut items = Vec::new(alloc);
    for _ in 0..count {
        match take_top(trees) {
            Some(item) => items.push(item)?,
            None => return Ok(None),
        }
    }
    items.reverse();
    Ok(Some(Items::from_vec(items)))
}

fn make_tuple(alloc: Global, trees: &mut Vec<Expr>, count: usize) -> Result<(), AllocError>
    ensures { OnOk result (trees_of trees.new.items ≡ m.put_items x.Tuple (m.take_items count x.end_of_expressions (trees_of trees.old.items))) }
{
    match take_items(alloc, trees, count)? {
        Some(items) => put(trees, Expr::Tuple(items)),
        None => {
            trees.clear();
            Ok(())
        }
    }
}

fn make_list(alloc: Global, trees: &mut Vec<Expr>, count: usize) -> Result<(), AllocError>
    ensures { OnOk result (trees_of trees.new.items ≡ m.put_items x.Listed (m.take_items count x.end_of_expressions (trees_of trees.old.items))) }
{
    match take_items(alloc, trees, count)? {
        Some(items) => put(trees, Expr::List(items)),
        None => {
            trees.clear();
            Ok(())
        }
    }
}

/// The two newest trees, the newest as the value.
fn take_pair(trees: &mut Vec<Expr>) -> Option<Pair>
    ensures pair { maybe_pair result ≡ pair_top (trees_of trees.old.items) }
    ensures below { trees_of trees.new.items ≡ below_pair (trees_of trees.old.items) }
{
    match trees.pop() {
        Some(value) => match trees.pop() {
            Some(key) => Some(Pair { key, value }),
            None => None,
        },
        None => None,
    }
}

#[tactic(auto, using(crate::proofs::Taking::pairs_end))]
fn take_pairs(
    alloc: Global,
    trees: &mut Vec<Expr>,
    count: usize,
) -> Result<Option<Pairs>, AllocError>
    ensures { IfOk result (λ found. taken_pairs found trees.new.items ≡ m.take_pairs count x.end_of_pairs (trees_of trees.old.items)) }
{
    let mut pairs = Vec::new(alloc);
    for _ in 0..count {
        match take_pair(trees) {
            Some(pair) => pairs.push(pair)?,
            None => return Ok(None),
        }
    }
    pairs.reverse();
    Ok(Some(Items::from_vec(pairs)))
}

fn make_dict(alloc: Global, trees: &mut Vec<Expr>, count: usize) -> Result<(), AllocError>
    ensures { OnOk result (trees_of trees.new.items ≡ m.put_pairs (m.take_pairs count x.end_of_pairs (trees_of trees.old.items))) }
{
    match take_pairs(alloc, trees, count)? {
        Some(pairs) => put(trees, Expr::Dict(pairs)),
        None => {
            trees.clear();
            Ok(())
        }
    }
}

fn name_in(alloc: Global, tree: Expr) -> Text
    ensures { result ≡ m.name_in (expression_of tree) }
{
    match tree {
        Expr::Name(name) => name,
        _ => Text::from_vec(Vec::new(alloc)),
    }
}

fn keyword(alloc: Global, pair: Pair) -> Keyword
    ensures { keyword_of result ≡ keyword_in (pair_of pair) }
{
    let Pair { key, value } = pair;
    Keyword {
        name: name_in(alloc, key),
        value,
    }
}

#[tactic(auto, using(crate::proofs::Taking::keywords_end))]
fn take_keywords(
    alloc: Global,
    trees: &mut Vec<Expr>,
    count: usize,
) -> Result<Option<Keywords>, AllocError>
    ensures { IfOk result (λ found. taken_keywords found trees.new.items ≡ m.take_keywords count x.end_of_keywords (trees_of trees.old.items)) }
{
    let mut keywords = Vec::new(alloc);
    for _ in 0..count {
        match take_pair(trees) {
            Some(pair) => keywords.push(keyword(alloc, pair))?,
            None => return Ok(None),
        }
    }
    keywords.reverse();
    Ok(Some(Items::from_vec(keywords)))
}

/// A call from its parts.
fn called(alloc: Global, callee: Expr, args: Exprs, keys: Keywords) -> Result<Expr, AllocError>
    ensures { IfOk result (λ tree. expression_of tree ≡ x.Call (expression_of callee) (expressions_of args) (keywords_of keys)) }
{
    let call = Call { callee, args, keys };
    Ok(Expr::Call(Boxed::new(alloc, call)?))
}

fn make_call(
    alloc: Global,
    trees: &mut Vec<Expr>,
    count: usize,
    keywords: usize,
) -> Result<(), AllocError>
    ensures { OnOk result (trees_of trees.new.items ≡ m.on_call count (m.take_keywords keywords x.end_of_keywords (trees_of trees.old.items))) }
{
    let Some(keys) = take_keywords(alloc, trees, keywords)? else {
        trees.clear();
        return Ok(());
    };
    let Some(args) = take_items(alloc, trees, count)? else {
        trees.clear();
        return Ok(());
    };
    let Some(callee) = trees.pop() else {
        return Ok(());
    };
    put(trees, called(alloc, callee, args, keys)?)
}

fn grow(alloc: Global, trees: &mut Vec<Expr>, step: Step) -> Result<(), AllocError>
    ensures { OnOk result (trees_of trees.new.items ≡ m.grow (step_of step.entry) (trees_of trees.old.items)) }
{
    match step {
        Step::PutName(name) => put_name(alloc, trees, name),
        Step::PutInt(n) => put(trees, Expr::Int(n)),
        Step::PutText(text) => put_text(alloc, trees, text),
        Step::JoinText(text) => join_text(trees, text),
        Step::PutConstant(constant) => put_constant(trees, constant),
        Step::Grouped => Ok(()),
        Step::MakeTuple(n) => make_tuple(alloc, trees, n),
        Step::MakeList(n) => make_list(alloc, trees, n),
        Step::MakeDict(n) => make_dict(alloc, trees, n),
        Step::MakeUnary(op) => make_unary(alloc, trees, op),
        Step::MakeBinary(op) => make_binary(alloc, trees, BinaryNode::Binary(op)),
        Step::MakeCompare(op) => make_binary(alloc, trees, BinaryNode::Compare(op)),
        Step::MakeIs(negated, right) => make_is(alloc, trees, negated, right),
        Step::MakeNot => make_not(alloc, trees),
        Step::MakeAnd => make_binary(alloc, trees, BinaryNode::And),
        Step::MakeOr => make_binary(alloc, trees, BinaryNode::Or),
        Step::MakeCond => make_cond(alloc, trees),
        Step::MakeAttr(name) => make_attr(alloc, trees, name),
        Step::MakeIndex => make_binary(alloc, trees, BinaryNode::Index),
        Step::MakeCall(n, k) => make_call(alloc, trees, n, k),
    }
}

/// The trees that the steps build, the newest last.
pub fn build_all(alloc: Global, steps: &[Step]) -> Result<Vec<Expr>, AllocError>
    ensures { IfOk result (λ built. trees_of built.items ≡ m.trees (steps_of steps.now)) }
{
    let mut trees = Vec::new(alloc);
    for step in steps {
        grow(alloc, &mut trees, *step)?;
    }
    Ok(trees)
}

/// The tree that a step builds alone, where it is a leaf.
fn leaf(alloc: Global, step: Step) -> Result<Option<Expr>, AllocError>
    ensures { IfOk result (λ leaf. ForSome leaf (λ tree. m.trees (step_of step.entry ∷ []) ≡ expression_of tree ∷ [])) }
{
    match step {
        Step::PutName(name) => Ok(Some(Expr::Name(name.copy(alloc)?))),
        Step::PutInt(n) => Ok(Some(Expr::Int(n))),
        Step::PutText(text) => Ok(Some(Expr::Str(text.copy(alloc)?))),
        _ => Ok(None),
    }
}

/// The tree that the steps build.
pub fn build(alloc: Global, steps: &[Step]) -> Result<Option<Expr>, AllocError>
    ensures { IfOk result (λ built. BuildsTop built (m.trees (steps_of steps.now))) }
{
    if let [step] = steps {
        if let Some(tree) = leaf(alloc, *step)? {
            return Ok(Some(tree));
        }
    }
    let mut trees = build_all(alloc, steps)?;
    Ok(trees.pop())
}
