//! The result of an introspection query.

/// The schema of a shop, of which the rows of `reader_rows` have the definitions, too.
pub const SHOP_RESULT: &str = r#"{"data": {"__schema": {
"description": "The \"small\" shop,\nwith a \\ and a tab\tand a bell\u0007.",
"queryType": {"name": "Shop"},
"mutationType": null,
"subscriptionType": {"name": "News"},
"types": [
  {"kind": "OBJECT", "name": "__Schema", "description": "All of it", "specifiedByURL": null,
   "fields": [{"name": "description", "args": [], "type": {"kind": "SCALAR", "name": "String", "ofType": null},
               "isDeprecated": false, "deprecationReason": null}],
   "inputFields": null, "interfaces": [], "enumValues": null, "possibleTypes": null},
  {"kind": "SCALAR", "name": "Day", "description": "A day, as 2021-10-26.", "specifiedByURL": "https://day.example/\"day\"",
   "fields": null, "inputFields": null, "interfaces": null, "enumValues": null, "possibleTypes": null},
  {"kind": "SCALAR", "name": "String", "description": "Text", "specifiedByURL": null},
  {"kind": "SCALAR", "name": "Weight", "description": null, "specifiedByURL": null},
  {"kind": "INTERFACE", "name": "Numbered", "description": "What has a number.", "interfaces": [],
   "fields": [{"name": "number", "description": null, "args": [], "isDeprecated": false, "deprecationReason": null,
               "type": {"kind": "NON_NULL", "name": null, "ofType": {"kind": "SCALAR", "name": "ID", "ofType": null}}}],
   "possibleTypes": [{"kind": "OBJECT", "name": "Book"}, {"kind": "OBJECT", "name": "Lamp"}]},
  {"kind": "INTERFACE", "name": "Priced", "description": null,
   "interfaces": [{"kind": "INTERFACE", "name": "Numbered", "ofType": null}],
   "fields": [
    {"name": "number", "args": [], "isDeprecated": false,
     "type": {"kind": "NON_NULL", "name": null, "ofType": {"kind": "SCALAR", "name": "ID", "ofType": null}}},
    {"name": "price", "description": "What it costs", "isDeprecated": false,
     "args": [{"name": "currency", "description": null, "defaultValue": "EURO", "type": {"kind": "ENUM", "name": "Currency"}}],
     "type": {"kind": "SCALAR", "name": "Float", "ofType": null}}]},
  {"kind": "OBJECT", "name": "Shop", "description": null, "interfaces": [],
   "fields": [
    {"name": "wares", "description": null, "isDeprecated": false, "deprecationReason": null,
     "args": [
      {"name": "first", "description": "How many, at most", "defaultValue": "10",
       "type": {"kind": "NON_NULL", "name": null, "ofType": {"kind": "SCALAR", "name": "Int", "ofType": null}}},
      {"name": "like", "description": null, "defaultValue": "{colours: [\"red\", \"a \\\"b\\\"\\\\n\"], weight: 1.5e3}",
       "type": {"kind": "INPUT_OBJECT", "name": "Taste", "ofType": null}}],
     "type": {"kind": "NON_NULL", "name": null, "ofType": {"kind": "LIST", "name": null, "ofType":
      {"kind": "NON_NULL", "name": null, "ofType": {"kind": "LIST", "name": null, "ofType":
       {"kind": "NON_NULL", "name": null, "ofType": {"kind": "UNION", "name": "Ware", "ofType": null}}}}}}},
    {"name": "old", "args": [], "type": {"kind": "SCALAR", "name": "Boolean"}, "isDeprecated": true, "deprecationReason": null},
    {"name": "oldest", "args": [], "type": {"kind": "SCALAR", "name": "Boolean"}, "isDeprecated": true,
     "deprecationReason": "Never\n\"was\""}]},
  {"kind": "OBJECT", "name": "Book", "description": null,
   "interfaces": [{"kind": "INTERFACE", "name": "Numbered"}, {"kind": "INTERFACE", "name": "Priced"}],
   "fields": [
    {"name": "number", "args": [], "isDeprecated": false,
     "type": {"kind": "NON_NULL", "ofType": {"kind": "SCALAR", "name": "ID"}}},
    {"name": "price", "args": [{"name": "currency", "defaultValue": "EURO", "type": {"kind": "ENUM", "name": "Currency"}}],
     "isDeprecated": false, "type": {"kind": "SCALAR", "name": "Float"}},
    {"name": "title", "args": [], "isDeprecated": false, "type": {"kind": "SCALAR", "name": "String"}},
    {"name": "written", "args": [], "isDeprecated": false, "type": {"kind": "SCALAR", "name": "Day"}}]},
  {"kind": "OBJECT", "name": "Lamp", "interfaces": [{"kind": "INTERFACE", "name": "Numbered"}],
   "fields": [{"name": "number", "args": [], "isDeprecated": false,
               "type": {"kind": "NON_NULL", "ofType": {"kind": "SCALAR", "name": "ID"}}}]},
  {"kind": "UNION", "name": "Ware", "possibleTypes": [{"kind": "OBJECT", "name": "Book"}, {"kind": "OBJECT", "name": "Lamp"}]},
  {"kind": "ENUM", "name": "Currency", "description": "Money", "enumValues": [
    {"name": "EURO", "description": null, "isDeprecated": false, "deprecationReason": null},
    {"name": "MARK", "description": "Not any more", "isDeprecated": true, "deprecationReason": "gone"},
    {"name": "CROWN", "description": null, "isDeprecated": true, "deprecationReason": "No longer supported"}]},
  {"kind": "INPUT_OBJECT", "name": "Taste", "description": "What is liked", "inputFields": [
    {"name": "colours", "description": "By name", "defaultValue": "[]",
     "type": {"kind": "LIST", "ofType": {"kind": "NON_NULL", "ofType": {"kind": "SCALAR", "name": "String"}}}},
    {"name": "weight", "defaultValue": null, "type": {"kind": "SCALAR", "name": "Weight"}},
    {"name": "inner", "defaultValue": "null", "type": {"kind": "INPUT_OBJECT", "name": "Taste"}}]},
  {"kind": "OBJECT", "name": "News", "interfaces": [], "fields": [{"name": "said", "args": [], "isDeprecated": false,
   "type": {"kind": "NON_NULL", "ofType": {"kind": "SCALAR", "name": "String"}}}]},
  {"kind": "OBJECT", "name": "Mutation", "interfaces": [], "fields": [{"name": "no", "args": [], "isDeprecated": false,
   "type": {"kind": "SCALAR", "name": "Int"}}]},
  {"kind": "OBJECT", "name": "Empty", "interfaces": [], "fields": []}],
"directives": [
  {"name": "include", "description": "Only if", "locations": ["FIELD", "FRAGMENT_SPREAD", "INLINE_FRAGMENT"], "isRepeatable": false,
   "args": [{"name": "if", "description": "Whether", "type": {"kind": "NON_NULL", "ofType": {"kind": "SCALAR", "name": "Boolean"}}}]},
  {"name": "near", "description": "Told \"near\"", "isRepeatable": true, "locations": ["FIELD", "OBJECT", "QUERY"], "args": [
    {"name": "place", "description": "Where", "type": {"kind": "SCALAR", "name": "String"}, "defaultValue": "\"home\""},
    {"name": "far", "description": null, "type": {"kind": "SCALAR", "name": "Boolean"}, "defaultValue": null}]},
  {"name": "bare", "args": [], "locations": ["SCALAR"]},
  {"name": "deprecated", "description": "Old", "isRepeatable": false, "locations": ["FIELD_DEFINITION", "ENUM_VALUE"],
   "args": [{"name": "reason", "type": {"kind": "SCALAR", "name": "String"}, "defaultValue": "\"No longer supported\""}]}]
}}}"#;
