// Elements that are shown: their words, and which of them are marked.
use crate::rows::{Row, expect_rows};
use ft_session::Status;
use std::test::Fail;

// What is marked: the hits of the Match by which an element is shown.
const SHOWN: [Row; 9] = [
    // the words of a Match: of a filter its includes, of words the first hit of each
    (
        r#"session 2
load 39 x
<a>storm over the old harbour storm</a>
show collection()/a[. contains text "storm" ftand "harbour" distance at most 2 words]
show collection()/a[. contains text "storm" ftand "old"]
show collection()/a[. contains text "over the old"]
show collection()/a[. contains text {"harbour old", "the old"} any]
show collection()/a[. contains text "old storm" all words]
show collection()/a[. contains text "storm whale" any word]
show collection()/a[. contains text {"storm over", "over the"} all]
"#,
        r#"ok
= 1
doc("x")/a[1]
storm over the old [harbour] [storm]
= 1
doc("x")/a[1]
[storm] over the [old] harbour storm
= 1
doc("x")/a[1]
storm [over] [the] [old] harbour storm
= 1
doc("x")/a[1]
storm over [the] [old] harbour storm
= 1
doc("x")/a[1]
[storm] over the [old] harbour storm
= 1
doc("x")/a[1]
[storm] over the old harbour storm
= 1
doc("x")/a[1]
[storm] [over] [the] old harbour storm
"#,
        Status::Done,
    ),
    // of `ftor` the first operand that is there, of `ftand` each one, of `ftnot` nothing
    (
        r#"session 2
load 39 x
<a>storm over the old harbour storm</a>
show collection()/a[. contains text "whale" ftor "storm"]
show collection()/a[. contains text "harbour" ftor "storm"]
show collection()/a[. contains text ("whale" ftor "harbour") ftand "the"]
show collection()/a[. contains text ftnot "whale" ftor "storm"]
show collection()/a[. contains text "whale" ftor ftnot "ship"]
show collection()/a[. contains text "storm" ftand ftnot "whale"]
show collection()/a[. contains text ftnot ("whale" ftand "storm")]
"#,
        r#"ok
= 1
doc("x")/a[1]
[storm] over the old harbour storm
= 1
doc("x")/a[1]
storm over the old [harbour] storm
= 1
doc("x")/a[1]
storm over [the] old [harbour] storm
= 1
doc("x")/a[1]
storm over the old harbour storm
= 1
doc("x")/a[1]
storm over the old harbour storm
= 1
doc("x")/a[1]
[storm] over the old harbour storm
= 1
doc("x")/a[1]
storm over the old harbour storm
"#,
        Status::Done,
    ),
    // as many hits as `occurs` asks for at least
    (
        r#"session 2
load 37 x
<a>storm, storm; storm. Old storm</a>
show collection()/a[. contains text "storm" occurs at least 2 times]
show collection()/a[. contains text "storm" occurs from 3 to 9 times]
show collection()/a[. contains text "storm" occurs exactly 4 times]
show collection()/a[. contains text "storm" occurs at most 4 times]
show collection()/a[. contains text {"old", "storm"} any occurs at least 2 times]
show collection()/a[. contains text "storm storm"]
show collection()/a[. contains text "storm storm" occurs at least 2 times]
show collection()/a[. contains text "old" ftand "storm" occurs at least 2 times]
show collection()/a[. contains text "storm" occurs at least 5 times]
"#,
        r#"ok
= 1
doc("x")/a[1]
[storm] [storm] storm Old storm
= 1
doc("x")/a[1]
[storm] [storm] [storm] Old storm
= 1
doc("x")/a[1]
[storm] [storm] [storm] Old [storm]
= 1
doc("x")/a[1]
storm storm storm Old storm
= 1
doc("x")/a[1]
[storm] storm storm [Old] storm
= 1
doc("x")/a[1]
[storm] [storm] storm Old storm
= 1
doc("x")/a[1]
[storm] [storm] [storm] Old storm
= 1
doc("x")/a[1]
[storm] [storm] storm [Old] storm
= 0
"#,
        Status::Done,
    ),
    // a window and a distance join their words to one hit, from the first to the last; the first such one counts
    (
        r#"session 2
load 39 x
<a>storm over the old harbour storm</a>
show collection()/a[. contains text "storm" ftand "old" window 4 words]
show collection()/a[. contains text "storm" ftand "old" window 3 words]
show collection()/a[. contains text "harbour" ftand "the" distance at most 1 words]
show collection()/a[. contains text "storm" ftand "harbour" distance at least 3 words]
show collection()/a[. contains text ("storm" ftand "harbour" window 2 words) ftand "over"]
"#,
        r#"ok
= 1
doc("x")/a[1]
[storm] [over] [the] [old] harbour storm
= 1
doc("x")/a[1]
storm over the [old] [harbour] [storm]
= 1
doc("x")/a[1]
storm over [the] [old] [harbour] storm
= 1
doc("x")/a[1]
[storm] [over] [the] [old] [harbour] storm
= 1
doc("x")/a[1]
storm [over] the old [harbour] [storm]
"#,
        Status::Done,
    ),
    // of phrases in a window in words too: the one that begins first, and of those that begin there the one that ends first
    (
        r#"session 2
load 34 x
<a>a x b b a y b c a b c x a b</a>
show collection()/a[. contains text ("a" ftand "b") window 2 words]
show collection()/a[. contains text ("a" ftand "b") window 3 words]
show collection()/a[. contains text ("a" ftand "b") window 40 words]
show collection()/a[. contains text ("b" ftand "b a") window 3 words]
show collection()/a[. contains text ("a" ftand "a") window 1 words]
show collection()/a[. contains text ("b c" ftand "a" ftand "b") window 3 words]
show collection()/a[. contains text ("b c" ftand "c a" ftand "y") window 5 words]
show collection()/a[. contains text ("b c" ftand "c a" ftand "y") window 4 words]
show collection()/a[. contains text ("x a" ftand "b c") window 5 words]
show collection()/a[. contains text "c b x" all words window 4 words]
show collection()/a[. contains text "b b a" window 3 words]
show collection()/a[. contains text "b b a" window 2 words]
"#,
        r#"ok
= 1
doc("x")/a[1]
a x b [b] [a] y b c a b c x a b
= 1
doc("x")/a[1]
[a] [x] [b] b a y b c a b c x a b
= 1
doc("x")/a[1]
[a] [x] [b] b a y b c a b c x a b
= 1
doc("x")/a[1]
a x [b] [b] [a] y b c a b c x a b
= 1
doc("x")/a[1]
[a] x b b a y b c a b c x a b
= 1
doc("x")/a[1]
a x b b a y [b] [c] [a] b c x a b
= 1
doc("x")/a[1]
a x b b a [y] [b] [c] [a] b c x a b
= 1
doc("x")/a[1]
a x b b a [y] [b] [c] [a] b c x a b
= 1
doc("x")/a[1]
a x b b a y b c a [b] [c] [x] [a] b
= 1
doc("x")/a[1]
a x b b a y b c a [b] [c] [x] a b
= 1
doc("x")/a[1]
a x [b] [b] [a] y b c a b c x a b
= 0
"#,
        Status::Done,
    ),
    // where a phrase has hits of several lengths, with `ftor`, `ftnot`, sentences, and filters in one another
    (
        r#"session 2
load 42 x
<a>old sea dog. A dog, a sea. Old salt</a>
thesaurus 21 t
r | dog | old sea dog
show collection()/a[. contains text ("dog" using thesaurus at "t" ftand "sea") window 3 words]
show collection()/a[. contains text ("dog" using thesaurus at "t" ftand "sea") window 2 words]
show collection()/a[. contains text (("whale" ftor "dog") ftand "sea") window 2 words]
show collection()/a[. contains text ("sea" ftand ftnot "dog") window 3 words]
show collection()/a[. contains text ("dog" ftand "sea") window 1 sentences]
show collection()/a[. contains text ((("dog" ftand "a") window 2 words) ftand "sea") window 4 words]
show collection()/a[. contains text ("dog" ftand "sea" ordered) window 3 words]
"#,
        r#"ok
ok
= 1
doc("x")/a[1]
[old] [sea] [dog] A dog a sea Old salt
= 1
doc("x")/a[1]
old [sea] [dog] A dog a sea Old salt
= 1
doc("x")/a[1]
old [sea] [dog] A dog a sea Old salt
= 1
doc("x")/a[1]
old [sea] dog A dog a sea Old salt
= 1
doc("x")/a[1]
old [sea] [dog] A dog a sea Old salt
= 1
doc("x")/a[1]
old [sea] [dog] [A] dog a sea Old salt
= 1
doc("x")/a[1]
old sea dog A [dog] [a] [sea] Old salt
"#,
        Status::Done,
    ),
    // other filters leave the words apart
    (
        r#"session 2
load 70 x
<a>Storm at sea. A storm near the old harbour. The harbour sleeps.</a>
show collection()/a[. contains text "storm" ftand "harbour" same sentence]
show collection()/a[. contains text "storm" ftand "harbour" different sentence]
show collection()/a[. contains text "harbour" ftand "sea" ordered]
show collection()/a[. contains text "harbour" ftand "the" ordered]
show collection()/a[. contains text "sleeps" ftand "storm" at end]
show collection()/a[. contains text "sea" ftor "storm" at start]
show collection()/a[. contains text ("storm" ftand "harbour" same sentence) ftor "sea"]
"#,
        r#"ok
= 1
doc("x")/a[1]
Storm at sea A [storm] near the old [harbour] The harbour sleeps
= 1
doc("x")/a[1]
[Storm] at sea A storm near the old [harbour] The harbour sleeps
= 0
= 1
doc("x")/a[1]
Storm at sea A storm near the old [harbour] [The] harbour sleeps
= 1
doc("x")/a[1]
[Storm] at sea A storm near the old harbour The harbour [sleeps]
= 1
doc("x")/a[1]
[Storm] at sea A storm near the old harbour The harbour sleeps
= 1
doc("x")/a[1]
Storm at sea A [storm] near the old [harbour] The harbour sleeps
"#,
        Status::Done,
    ),
    // of `not in` the first one that stands out
    (
        r#"session 2
load 26 x
<a>old storm and storm</a>
show collection()/a[. contains text "storm" not in "old storm"]
show collection()/a[. contains text "storm" not in "whale"]
"#,
        r#"ok
= 1
doc("x")/a[1]
old storm and [storm]
= 1
doc("x")/a[1]
old [storm] and storm
"#,
        Status::Done,
    ),
    // under its options, by lists and stems
    (
        r#"session 2
load 39 x
<a>The Vessel, Running home: vessel</a>
thesaurus 17 t
r | ship | vessel
stop 3 s
the
stems 11
running run
show collection()/a[. contains text "ship" using thesaurus at "t"]
show collection()/a[. contains text "vessel" using case sensitive]
show collection()/a[. contains text "run" using stemming]
show collection()/a[. contains text "run.*" using wildcards]
show collection()/a[. contains text "vessel the home" using stop words at "s"]
"#,
        r#"ok
ok
ok
ok
= 1
doc("x")/a[1]
The [Vessel] Running home vessel
= 1
doc("x")/a[1]
The Vessel Running home [vessel]
= 1
doc("x")/a[1]
The Vessel [Running] home vessel
= 1
doc("x")/a[1]
The Vessel [Running] home vessel
= 1
doc("x")/a[1]
The [Vessel] [Running] [home] vessel
"#,
        Status::Done,
    ),
];

// Which words an element has, and by which predicate it is shown.
const ELEMENTS: [Row; 6] = [
    // attributes have no words, and no word goes from one text to the next
    (
        r#"session 2
load 69 x
<a k="storm"><b>st<c>orm</c></b>: a <b k="y">storm</b><c>calm</c></a>
show collection()/a[. contains text "storm"]
show collection()/a[. contains text "orm a"]
show collection()/a[@k = "storm"][. contains text "calm"]
"#,
        r#"ok
= 1
doc("x")/a[1]
st orm a [storm] calm
= 1
doc("x")/a[1]
st [orm] [a] storm calm
= 1
doc("x")/a[1]
st orm a storm [calm]
"#,
        Status::Done,
    ),
    // words as they are written
    (
        r#"session 2
load 43 x
<a>The STORM -- can't: 3.14!
 é&amp;Ü</a>
show collection()/a[. contains text "storm" ftand "can't" ftand "3.14" ftand "ü"]
"#,
        r#"ok
= 1
doc("x")/a[1]
The [STORM] [can't] [3.14] é [Ü]
"#,
        Status::Done,
    ),
    // an element without words
    (
        r#"session 2
load 13 x
<a><b/>..</a>
show collection()/a[. contains text ftnot "x"]
show collection()//b[. contains text ftnot "x"]
"#,
        r#"ok
= 1
doc("x")/a[1]

= 1
doc("x")/a[1]/b[1]

"#,
        Status::Done,
    ),
    // each element by its own words, an inner one too
    (
        r#"session 2
load 28 x
<a>x <a>y x</a> <b>x</b></a>
load 10 "my doc"
<a>z x</a>
show collection()//a[. contains text "x"]
show collection()//a[. contains text "x" occurs at least 2 times]
show doc("x")/a/*[. contains text "x"]
show collection()/a[. contains text "w"]
"#,
        r#"ok
ok
= 3
doc("x")/a[1]
[x] y x x
doc("x")/a[1]/a[1]
y [x]
doc("my doc")/a[1]
z [x]
= 1
doc("x")/a[1]
[x] y [x] x
= 2
doc("x")/a[1]/a[1]
y [x]
doc("x")/a[1]/b[1]
[x]
= 0
"#,
        Status::Done,
    ),
    // the last predicate of the last step says what is marked
    (
        r#"session 2
load 25 x
<a><p>x y</p><p>y</p></a>
show collection()//p[. contains text "x"][. contains text "y"]
show collection()/a[. contains text "x"]/p[. contains text "y"]
show collection()//p[2][. contains text "y"]
show collection()//a[p contains text "x" and . contains text "y"][. contains text ("x" ftor "y")]
show collection()//p[ . contains text "x" ]
"#,
        r#"ok
= 1
doc("x")/a[1]/p[1]
x [y]
= 2
doc("x")/a[1]/p[1]
x [y]
doc("x")/a[1]/p[2]
[y]
= 1
doc("x")/a[1]/p[2]
[y]
= 1
doc("x")/a[1]
[x] y y
= 1
doc("x")/a[1]/p[1]
[x] y
"#,
        Status::Done,
    ),
    // what is shown is as it is now
    (
        r#"session 2
load 10 x
<a>x y</a>
show collection()/a[. contains text "y"]
insert 8 first collection()/a
<p>y</p>
show collection()/a[. contains text "y"]
delete collection()/a/p
show collection()/a[. contains text "y"]
"#,
        r#"ok
= 1
doc("x")/a[1]
x [y]
ok
= 1
doc("x")/a[1]
[y] x y
ok
= 1
doc("x")/a[1]
x [y]
"#,
        Status::Done,
    ),
];

#[test]
fn words_of_a_match_are_marked(rt: HostRuntime) -> Result<(), Fail> {
    expect_rows(&rt, rt.alloc(), &SHOWN)
}

#[test]
fn elements_are_shown_with_their_words(rt: HostRuntime) -> Result<(), Fail> {
    expect_rows(&rt, rt.alloc(), &ELEMENTS)
}
