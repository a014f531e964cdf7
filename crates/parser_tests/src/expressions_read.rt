//! Expressions read and written out.
use crate::rows::{Answer, assert_row, assert_rows};
use crate::{expression, print_expression};
use med_syntax::is_reserved;
use std::alloc::Global;
use std::test::Fail;

/// The expression of the text, written out, or why it is refused.
struct Printed;

impl Answer for Printed {
    fn answer(alloc: Global, text: &str) -> Result<String, Fail> {
        match expression(alloc, text) {
            Ok(expr) => Ok(print_expression(alloc, &expr)?),
            Err(cause) => Ok(format!(in alloc; "{cause:?}")?),
        }
    }
}

#[test]
fn operands(rt: HostRuntime) -> Result<(), Fail> {
    assert_rows::<Printed>(
        rt.alloc(),
        &rt,
        "1 => 1\n\
        007 => 7\n\
        9223372036854775807 => 9223372036854775807\n\
        -1 => - 1\n\
        -9223372036854775808 => - 9223372036854775808\n\
        - 9223372036854775808 => - 9223372036854775808\n\
        - - 9223372036854775808 => - - 9223372036854775808\n\
        'd''e' => 'd''e'\n\
        '' => ''\n\
        'café --' => 'café --'\n\
        a => \"a\"\n\
        A => \"a\"\n\
        \"A\" => \"A\"\n\
        \"a\"\"b\" => \"a\"\"b\"\n\
        t.a => \"t\" . \"a\"\n\
        \"T\" . \"A b\" => \"T\" . \"A b\"\n\
        x_$1 => \"x_$1\"\n\
        true => TRUE\n\
        False => FALSE\n\
        NULL => NULL\n\
        unknown => \"unknown\"\n\
        next => \"next\"\n\
        row => \"row\"\n\
        \"select\" => \"select\"\n\
        (1) => ( 1 )\n\
        ((a)) => ( ( \"a\" ) )\n\
        a--b => \"a\"",
    )
}

#[test]
fn sums(rt: HostRuntime) -> Result<(), Fail> {
    assert_rows::<Printed>(
        rt.alloc(),
        &rt,
        "- a => - \"a\"\n\
        - -1 => - - 1\n\
        -(1) => - ( 1 )\n\
        - t.a => - \"t\" . \"a\"\n\
        1-1 => 1 - 1\n\
        1 - -1 => 1 - - 1\n\
        a-1 => \"a\" - 1\n\
        1+2+3 => 1 + 2 + 3\n\
        1-2-3 => 1 - 2 - 3\n\
        1-(2-3) => 1 - ( 2 - 3 )\n\
        1+2*3 => 1 + 2 * 3\n\
        (1+2)*3 => ( 1 + 2 ) * 3\n\
        1*2/3%4 => 1 * 2 / 3 % 4\n\
        -a*-b => - \"a\" * - \"b\"\n\
        1*-2 => 1 * - 2",
    )
}

#[test]
fn conditions(rt: HostRuntime) -> Result<(), Fail> {
    assert_rows::<Printed>(
        rt.alloc(),
        &rt,
        "a; => Syntax\n\
        a=b => \"a\" = \"b\"\n\
        a!=b => \"a\" <> \"b\"\n\
        a<>b => \"a\" <> \"b\"\n\
        a<b => \"a\" < \"b\"\n\
        a<=b => \"a\" <= \"b\"\n\
        a>b => \"a\" > \"b\"\n\
        a>=b => \"a\" >= \"b\"\n\
        a+1 = b*2 => \"a\" + 1 = \"b\" * 2\n\
        a is null => \"a\" IS NULL\n\
        a is not null => \"a\" IS NOT NULL\n\
        a is true => \"a\" IS TRUE\n\
        a is not false => \"a\" IS NOT FALSE\n\
        a is unknown => \"a\" IS UNKNOWN\n\
        unknown is not unknown => \"unknown\" IS NOT UNKNOWN\n\
        not unknown => NOT \"unknown\"\n\
        a = b is true => \"a\" = \"b\" IS TRUE\n\
        a in (1) => \"a\" IN ( 1 )\n\
        a in (1, b or c, 'x') => \"a\" IN ( 1 , \"b\" OR \"c\" , 'x' )\n\
        a not in (1, 2) => \"a\" NOT IN ( 1 , 2 )\n\
        a in (1) = true => \"a\" IN ( 1 ) = TRUE\n\
        a between 1 and 2 => \"a\" BETWEEN 1 AND 2\n\
        a not between 1+1 and 2*b => \"a\" NOT BETWEEN 1 + 1 AND 2 * \"b\"\n\
        a between 1 and 2 and b => \"a\" BETWEEN 1 AND 2 AND \"b\"\n\
        a like 'x%' => \"a\" LIKE 'x%'\n\
        a + b not like '_' => \"a\" + \"b\" NOT LIKE '_'\n\
        not a => NOT \"a\"\n\
        not not a => NOT NOT \"a\"\n\
        not a = b => NOT \"a\" = \"b\"\n\
        not a is null => NOT \"a\" IS NULL\n\
        a = 1 and b = 2 or not c => \"a\" = 1 AND \"b\" = 2 OR NOT \"c\"\n\
        a or b and c or d => \"a\" OR \"b\" AND \"c\" OR \"d\"\n\
        (a or b) and c => ( \"a\" OR \"b\" ) AND \"c\"",
    )
}

#[test]
fn calls(rt: HostRuntime) -> Result<(), Fail> {
    assert_rows::<Printed>(
        rt.alloc(),
        &rt,
        "count(*) => \"count\" ( * )\n\
        COUNT( * ) => \"count\" ( * )\n\
        count(*) + 1 => \"count\" ( * ) + 1\n\
        count(*) * 2 => \"count\" ( * ) * 2\n\
        sum(n) => \"sum\" ( \"n\" )\n\
        sum(a+1) => \"sum\" ( \"a\" + 1 )\n\
        f() => \"f\" ( )\n\
        f(a,b) => \"f\" ( \"a\" , \"b\" )\n\
        f (1) => \"f\" ( 1 )\n\
        f((1)) => \"f\" ( ( 1 ) )\n\
        f(1) + g(2) => \"f\" ( 1 ) + \"g\" ( 2 )\n\
        min(f(x)) > 2 => \"min\" ( \"f\" ( \"x\" ) ) > 2\n\
        f(g(*), h()) => \"f\" ( \"g\" ( * ) , \"h\" ( ) )\n\
        f(a or b, not c, t.d, 'x') => \"f\" ( \"a\" OR \"b\" , NOT \"c\" , \"t\" . \"d\" , 'x' )\n\
        \"f\"(x) => \"f\" ( \"x\" )\n\
        \"left\"(1) => \"left\" ( 1 )\n\
        unknown(1) is unknown => \"unknown\" ( 1 ) IS UNKNOWN\n\
        - f(1) => - \"f\" ( 1 )\n\
        f(-1) => \"f\" ( - 1 )\n\
        a in (f(1), g()) => \"a\" IN ( \"f\" ( 1 ) , \"g\" ( ) )",
    )
}

#[test]
fn newlines_stand_between_tokens(rt: HostRuntime) -> Result<(), Fail> {
    assert_row::<Printed>(rt.alloc(), &rt, "\ta\r\n-- the rest => \"a\"")
}

#[test]
fn long_names(rt: HostRuntime) -> Result<(), Fail> {
    assert_rows::<Printed>(
        rt.alloc(),
        &rt,
        "a23456789_123456789_123456789_123456789_123456789_123456789_123.\"a23456789_123456789_123456789_123456789_123456789_123456789_123\" = 'a23456789_123456789_123456789_123456789_123456789_123456789_1234' => \"a23456789_123456789_123456789_123456789_123456789_123456789_123\" . \"a23456789_123456789_123456789_123456789_123456789_123456789_123\" = 'a23456789_123456789_123456789_123456789_123456789_123456789_1234'\n\
        1 + a23456789_123456789_123456789_123456789_123456789_123456789_1234 => NameTooLong\n\
        a23456789_123456789_123456789_123456789_123456789_123456789_1234(1) => NameTooLong\n\
        \"a23456789_123456789_123456789_123456789_123456789_123456789_1234\".a => NameTooLong",
    )
}

/// The tree of the text, or why it is refused.
struct Tree;

impl Answer for Tree {
    fn answer(alloc: Global, text: &str) -> Result<String, Fail> {
        match expression(alloc, text) {
            Ok(expr) => Ok(format!(in alloc; "{expr:?}")?),
            Err(cause) => Ok(format!(in alloc; "{cause:?}")?),
        }
    }
}

// The product stands in the sum, and the sum of the first two in the whole; a comparison stands below NOT, and a chain of three is one node.
#[test]
fn trees(rt: HostRuntime) -> Result<(), Fail> {
    assert_rows::<Tree>(
        rt.alloc(),
        &rt,
        "1 - 2 - 3 * 4 => Binary(Subtract, Binary(Subtract, Number(1), Number(2)), Binary(Multiply, Number(3), Number(4)))\n\
        not a = b or c or d => Chain(Or, Not(Compare(Equal, Column(None, \"a\"), Column(None, \"b\"))), [Column(None, \"c\"), Column(None, \"d\")])\n\
        count(*) => CallAll(\"count\")\n\
        now() => Call(\"now\", [])\n\
        F(1, a) => Call(\"f\", [Number(1), Column(None, \"a\")])",
    )
}

/// What is answered of a word, of it as a column, and of it in quotes.
struct WordAnswers;

impl Answer for WordAnswers {
    fn answer(alloc: Global, word: &str) -> Result<String, Fail> {
        let is = is_reserved(word);
        let alone = Printed::answer(alloc, word)?;
        let column = Printed::answer(alloc, &format!(in alloc; "t.{word}")?)?;
        let quoted = Printed::answer(alloc, &format!(in alloc; "\"{word}\"")?)?;
        Ok(format!(in alloc; "{is} {alone} {column} {quoted}")?)
    }
}

// FALSE, NULL and TRUE are reserved too, but they are expressions.
#[test]
fn reserved_words(rt: HostRuntime) -> Result<(), Fail> {
    assert_rows::<WordAnswers>(
        rt.alloc(),
        &rt,
        "all => true Syntax Syntax \"all\"\n\
        and => true Syntax Syntax \"and\"\n\
        as => true Syntax Syntax \"as\"\n\
        asc => true Syntax Syntax \"asc\"\n\
        between => true Syntax Syntax \"between\"\n\
        by => true Syntax Syntax \"by\"\n\
        case => true Syntax Syntax \"case\"\n\
        create => true Syntax Syntax \"create\"\n\
        cross => true Syntax Syntax \"cross\"\n\
        current_user => true Syntax Syntax \"current_user\"\n\
        declare => true Syntax Syntax \"declare\"\n\
        delete => true Syntax Syntax \"delete\"\n\
        desc => true Syntax Syntax \"desc\"\n\
        distinct => true Syntax Syntax \"distinct\"\n\
        drop => true Syntax Syntax \"drop\"\n\
        else => true Syntax Syntax \"else\"\n\
        end => true Syntax Syntax \"end\"\n\
        except => true Syntax Syntax \"except\"\n\
        fetch => true Syntax Syntax \"fetch\"\n\
        for => true Syntax Syntax \"for\"\n\
        foreign => true Syntax Syntax \"foreign\"\n\
        from => true Syntax Syntax \"from\"\n\
        full => true Syntax Syntax \"full\"\n\
        group => true Syntax Syntax \"group\"\n\
        having => true Syntax Syntax \"having\"\n\
        in => true Syntax Syntax \"in\"\n\
        inner => true Syntax Syntax \"inner\"\n\
        insert => true Syntax Syntax \"insert\"\n\
        intersect => true Syntax Syntax \"intersect\"\n\
        into => true Syntax Syntax \"into\"\n\
        is => true Syntax Syntax \"is\"\n\
        join => true Syntax Syntax \"join\"\n\
        left => true Syntax Syntax \"left\"\n\
        like => true Syntax Syntax \"like\"\n\
        limit => true Syntax Syntax \"limit\"\n\
        natural => true Syntax Syntax \"natural\"\n\
        not => true Syntax Syntax \"not\"\n\
        offset => true Syntax Syntax \"offset\"\n\
        on => true Syntax Syntax \"on\"\n\
        or => true Syntax Syntax \"or\"\n\
        order => true Syntax Syntax \"order\"\n\
        outer => true Syntax Syntax \"outer\"\n\
        right => true Syntax Syntax \"right\"\n\
        select => true Syntax Syntax \"select\"\n\
        set => true Syntax Syntax \"set\"\n\
        then => true Syntax Syntax \"then\"\n\
        union => true Syntax Syntax \"union\"\n\
        update => true Syntax Syntax \"update\"\n\
        user => true Syntax Syntax \"user\"\n\
        using => true Syntax Syntax \"using\"\n\
        values => true Syntax Syntax \"values\"\n\
        when => true Syntax Syntax \"when\"\n\
        where => true Syntax Syntax \"where\"\n\
        with => true Syntax Syntax \"with\"",
    )
}

/// Whether the word is reserved.
struct Reserved;

impl Answer for Reserved {
    fn answer(alloc: Global, word: &str) -> Result<String, Fail> {
        Ok(format!(in alloc; "{}", is_reserved(word))?)
    }
}

#[test]
fn other_words(rt: HostRuntime) -> Result<(), Fail> {
    assert_rows::<Reserved>(
        rt.alloc(),
        &rt,
        "false => true\n\
        null => true\n\
        true => true\n\
        row => false\n\
        next => false\n\
        unknown => false\n\
        ALL => false\n\
        \u{20}=> false",
    )
}
