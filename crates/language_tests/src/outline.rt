//! What the reader makes of a document that has everything, with its spans.
use crate::same::same;
use language::position::{Span, Spanning};
use language::tree::{
    Arguments, Definition, Directive, Field, Fragment, Operation, OperationType, Selection,
    VariableDefinition, VariableDefinitions,
};
use language::value::{DefaultScalarValue, InputValue};
use sample_reader::read_document;

type Value = InputValue<DefaultScalarValue>;

// Each kind of token and of node, over several lines.
const DOCUMENT: &[u8] = b"\
query Q($a: [Int!]! = [1, -2] @d, $b: E = X) @e(k: \"s t\") {\n\
\x20 x: dog(v: $a, o: {p: true, q: null}) @skip(if: false) {\n\
\x20   ...F @g\n\
\x20   ... on Dog @h { n1 }\n\
\x20   ... @i { n2 }\n\
\x20   ... { n3 }\n\
\x20 }\n\
}\n\
# \xc3\xa9, no token\n\
fragment F on Dog @j(l: [], m: {}) {\r\n\
\tn4\n\
}\n\
mutation { n5 }\n\
subscription S { n6 }\n\
{ n7 }";

// The nodes in order, each with the place of the text that it covers.
const OUTLINE: &str = "\
query 0=0:0 193=7:1\n\
name Q 6=0:6 7=0:7\n\
variables 7=0:7 44=0:44\n\
defines a 8=0:8 10=0:10\n\
type [Int!]!\n\
at 12=0:12 19=0:19\n\
list 22=0:22 29=0:29\n\
int 1\n\
at 23=0:23 24=0:24\n\
int -2\n\
at 26=0:26 28=0:28\n\
directive 30=0:30 32=0:32\n\
name d 31=0:31 32=0:32\n\
defines b 34=0:34 36=0:36\n\
type E\n\
at 38=0:38 39=0:39\n\
enum X 42=0:42 43=0:43\n\
directive 45=0:45 57=0:57\n\
name e 46=0:46 47=0:47\n\
arguments 47=0:47 57=0:57\n\
argument k 48=0:48 49=0:49\n\
string s t 51=0:51 56=0:56\n\
field 62=1:2 191=6:3\n\
alias x 62=1:2 63=1:3\n\
name dog 65=1:5 68=1:8\n\
arguments 68=1:8 98=1:38\n\
argument v 69=1:9 70=1:10\n\
variable a 72=1:12 74=1:14\n\
argument o 76=1:16 77=1:17\n\
object 79=1:19 97=1:37\n\
key p 80=1:20 81=1:21\n\
boolean true 83=1:23 87=1:27\n\
key q 89=1:29 90=1:30\n\
null 92=1:32 96=1:36\n\
directive 99=1:39 115=1:55\n\
name skip 100=1:40 104=1:44\n\
arguments 104=1:44 115=1:55\n\
argument if 105=1:45 107=1:47\n\
boolean false 109=1:49 114=1:54\n\
spread 122=2:4 129=2:11\n\
name F 125=2:7 126=2:8\n\
directive 127=2:9 129=2:11\n\
name g 128=2:10 129=2:11\n\
inline 134=3:4 154=3:24\n\
condition Dog 141=3:11 144=3:14\n\
directive 145=3:15 147=3:17\n\
name h 146=3:16 147=3:17\n\
field 150=3:20 152=3:22\n\
no alias\n\
name n1 150=3:20 152=3:22\n\
end\n\
inline 159=4:4 172=4:17\n\
no condition\n\
directive 163=4:8 165=4:10\n\
name i 164=4:9 165=4:10\n\
field 168=4:13 170=4:15\n\
no alias\n\
name n2 168=4:13 170=4:15\n\
end\n\
inline 177=5:4 187=5:14\n\
no condition\n\
field 183=5:10 185=5:12\n\
no alias\n\
name n3 183=5:10 185=5:12\n\
end\n\
end\n\
end\n\
fragment 209=9:0 252=11:1\n\
name F 218=9:9 219=9:10\n\
condition Dog 223=9:14 226=9:17\n\
directive 227=9:18 243=9:34\n\
name j 228=9:19 229=9:20\n\
arguments 229=9:20 243=9:34\n\
argument l 230=9:21 231=9:22\n\
list 233=9:24 235=9:26\n\
argument m 237=9:28 238=9:29\n\
object 240=9:31 242=9:33\n\
field 248=10:1 250=10:3\n\
no alias\n\
name n4 248=10:1 250=10:3\n\
end\n\
mutation 253=12:0 268=12:15\n\
no name\n\
field 264=12:11 266=12:13\n\
no alias\n\
name n5 264=12:11 266=12:13\n\
end\n\
subscription 269=13:0 290=13:21\n\
name S 282=13:13 283=13:14\n\
field 286=13:17 288=13:19\n\
no alias\n\
name n6 286=13:17 288=13:19\n\
end\n\
query 291=14:0 297=14:6\n\
no name\n\
field 293=14:2 295=14:4\n\
no alias\n\
name n7 293=14:2 295=14:4\n\
end\n";

/// A line: the kind of node, and the index, line and column of its start and of its end. A line that finds no memory is
/// missed when the outlines are compared.
fn print_span(out: &mut String, kind: &str, span: &Span) {
    let (first, last) = (span.start.index(), span.end.index());
    let _ = writeln!(out, "{kind} {first}={} {last}={}", span.start, span.end);
}

/// The same with the node's text after its kind.
fn print_node(out: &mut String, kind: &str, text: &str, span: &Span) {
    let _ = write!(out, "{kind} {text}");
    print_span(out, "", span);
}

fn print_name(out: &mut String, kind: &str, name: &Spanning<&str>) {
    print_node(out, kind, name.item, &name.span);
}

fn print_optional(out: &mut String, kind: &str, name: &Option<Spanning<&str>>) {
    match name {
        Some(name) => print_name(out, kind, name),
        None => print_word(out, "no ", kind),
    }
}

/// A line of a word and what stands before it.
fn print_word(out: &mut String, before: &str, word: &str) {
    let _ = writeln!(out, "{before}{word}");
}

fn print_value(out: &mut String, value: &Spanning<Value>) {
    match &value.item {
        InputValue::List(items) => {
            print_span(out, "list", &value.span);
            for item in items {
                print_value(out, item);
            }
        }
        InputValue::Object(entries) => {
            print_span(out, "object", &value.span);
            for (key, item) in entries {
                print_node(out, "key", key.item.as_str(), &key.span);
                print_value(out, item);
            }
        }
        InputValue::Scalar(scalar) => print_scalar(out, scalar, &value.span),
        InputValue::Null => print_span(out, "null", &value.span),
        InputValue::Enum(name) => print_node(out, "enum", name.as_str(), &value.span),
        InputValue::Variable(name) => print_node(out, "variable", name.as_str(), &value.span),
    }
}

fn print_scalar(out: &mut String, scalar: &DefaultScalarValue, span: &Span) {
    match scalar {
        DefaultScalarValue::Int(n) => {
            let _ = writeln!(out, "int {n}");
            print_span(out, "at", span);
        }
        DefaultScalarValue::String(text) => print_node(out, "string", text.as_str(), span),
        DefaultScalarValue::Boolean(true) => print_node(out, "boolean", "true", span),
        DefaultScalarValue::Boolean(false) => print_node(out, "boolean", "false", span),
    }
}

fn print_arguments(
    out: &mut String,
    arguments: &Option<Spanning<Arguments<'_, DefaultScalarValue>>>,
) {
    if let Some(arguments) = arguments {
        print_span(out, "arguments", &arguments.span);
        for (name, value) in &arguments.item.items {
            print_name(out, "argument", name);
            print_value(out, value);
        }
    }
}

fn print_directives(
    out: &mut String,
    directives: &Option<Vec<Spanning<Directive<'_, DefaultScalarValue>>>>,
) {
    if let Some(directives) = directives {
        for directive in directives {
            print_span(out, "directive", &directive.span);
            print_name(out, "name", &directive.item.name);
            print_arguments(out, &directive.item.arguments);
        }
    }
}

fn print_selections(out: &mut String, selections: &[Selection<'_, DefaultScalarValue>]) {
    for selection in selections {
        match selection {
            Selection::Field(field) => {
                print_field(out, &field.item, &field.span);
                if let Some(set) = &field.item.selection_set {
                    print_selections(out, set.as_slice());
                    print_word(out, "", "end");
                }
            }
            Selection::FragmentSpread(spread) => {
                print_span(out, "spread", &spread.span);
                print_name(out, "name", &spread.item.name);
                print_directives(out, &spread.item.directives);
            }
            Selection::InlineFragment(inline) => {
                print_span(out, "inline", &inline.span);
                print_optional(out, "condition", &inline.item.type_condition);
                print_directives(out, &inline.item.directives);
                print_selections(out, inline.item.selection_set.as_slice());
                print_word(out, "", "end");
            }
        }
    }
}

// A field without its set.
fn print_field(out: &mut String, field: &Field<'_, DefaultScalarValue>, span: &Span) {
    print_span(out, "field", span);
    print_optional(out, "alias", &field.alias);
    print_name(out, "name", &field.name);
    print_arguments(out, &field.arguments);
    print_directives(out, &field.directives);
}

fn print_variable(out: &mut String, definition: &VariableDefinition<'_, DefaultScalarValue>) {
    let _ = writeln!(out, "type {}", definition.var_type.item);
    print_span(out, "at", &definition.var_type.span);
    if let Some(value) = &definition.default_value {
        print_value(out, value);
    }
    print_directives(out, &definition.directives);
}

fn print_variables(
    out: &mut String,
    definitions: &Option<Spanning<VariableDefinitions<'_, DefaultScalarValue>>>,
) {
    if let Some(definitions) = definitions {
        print_span(out, "variables", &definitions.span);
        for (name, definition) in &definitions.item.items {
            print_name(out, "defines", name);
            print_variable(out, definition);
        }
    }
}

fn kind_of(operation: OperationType) -> &'static str {
    match operation {
        OperationType::Query => "query",
        OperationType::Mutation => "mutation",
        OperationType::Subscription => "subscription",
    }
}

fn print_operation(out: &mut String, operation: &Spanning<Operation<'_, DefaultScalarValue>>) {
    let item = &operation.item;
    print_span(out, kind_of(item.operation_type), &operation.span);
    print_optional(out, "name", &item.name);
    print_variables(out, &item.variable_definitions);
    print_directives(out, &item.directives);
    print_selections(out, item.selection_set.as_slice());
}

fn print_fragment(out: &mut String, fragment: &Spanning<Fragment<'_, DefaultScalarValue>>) {
    print_span(out, "fragment", &fragment.span);
    print_name(out, "name", &fragment.item.name);
    print_name(out, "condition", &fragment.item.type_condition);
    print_directives(out, &fragment.item.directives);
    print_selections(out, fragment.item.selection_set.as_slice());
}

fn print_definitions(out: &mut String, definitions: &[Definition<'_, DefaultScalarValue>]) {
    for definition in definitions {
        match definition {
            Definition::Operation(operation) => print_operation(out, operation),
            Definition::Fragment(fragment) => print_fragment(out, fragment),
        }
        print_word(out, "", "end");
    }
}

#[test]
fn reads_everything_in_its_place(rt: HostRuntime) {
    let definitions = read_document(rt.alloc(), DOCUMENT).expect(&rt, "a document");
    let mut out = String::new(rt.alloc());
    print_definitions(&mut out, definitions.as_slice());
    same(&rt, out.as_str(), OUTLINE);
}
