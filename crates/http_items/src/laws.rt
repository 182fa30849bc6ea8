//! Laws of the definitions. The functions do nothing: their contracts are the laws.
ghost use Rattle.std.specs.Prelude.{◌≡◌, ℕ, Bool, true, false, List, [], ◌++◌, Some};
ghost use Rattle.std.specs.List.{AllByRecursion};
ghost use Rattle.httparse.specs.Grammar.{RequestHead};
ghost use Rattle.http_items.specs.declared.refusals.Refusal.{Refusal};
ghost use Rattle.http_items.specs.Heads.{head_in, IsHead};
ghost use Rattle.http_items.specs.Items.{front, onward, items, BeginsWith, IsWithin};
ghost use Rattle.http_items.specs.Refusals.{number_of, refusal_numbered};
ghost use Rattle.http_items.specs.Standings.{Standing, items_from, IsQuiet};
ghost use Rattle.http_items.specs.Ends.{IsEnding, EndsAfter};

/// The reader of heads finds what the grammar of `httparse` has as a request head, within both limits, and nothing else. A head that is there stays with further bytes behind it.
pub fn heads_of_the_grammar()
    ensures found { (text : List ℕ) (h : RequestHead) (rest : List ℕ) → head_in text ≡ Some (h, rest) → IsHead text h rest }
    ensures all { (text : List ℕ) (h : RequestHead) (rest : List ℕ) → IsHead text h rest → head_in text ≡ Some (h, rest) }
    ensures stays { (text : List ℕ) (h : RequestHead) (rest more : List ℕ) → head_in text ≡ Some (h, rest) → head_in (text ++ more) ≡ Some (h, rest ++ more) }
{}

/// The items of bytes are the first of them and those of what is behind it. The items of the beginning of a stream are the beginning of its items, whatever follows.
pub fn items_in_order()
    ensures step { (text : List ℕ) (ended : Bool) → items text ended ≡ onward (front text ended) (λ rest. items rest ended) }
    ensures begin { (text more : List ℕ) (ended : Bool) → BeginsWith (items (text ++ more) ended) (items text false) }
{}

/// The end of a stream gives at most one item behind those of its bytes: a refusal of the head or of the body that it cuts, number 1 or 6, which closes the connection. So it gives no request, and no route and no meter is asked for what it gives. Where nothing is due of a connection, the end gives that and nothing besides.
pub fn end_of_a_stream()
    ensures whole { (text : List ℕ) → EndsAfter (items text false) (items text true) }
    ensures waiting { (standing : Standing) → IsQuiet standing → IsEnding (items_from standing [] true) }
{}

/// The body of a request has at most 1 MiB, and each refusal of a stream's items has a number from 1 to 8: 9 and 10 are of requests whose route or whose tenant's meter refuses them.
pub fn items_have_numbers()
    ensures within { (text : List ℕ) (ended : Bool) → AllByRecursion IsWithin (items text ended) }
{}

/// Each refusal has a number of its own.
pub fn refusals_by_number()
    ensures { (refusal : Refusal) → refusal_numbered (number_of refusal) ≡ refusal }
{}
