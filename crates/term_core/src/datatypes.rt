//! IRIs of the datatypes that RDF and SPARQL give a meaning of their own.

/// Strings without a language tag (XML Schema 1.1 Datatypes, section 3.3.1).
pub const XSD_STRING: &str = "http://www.w3.org/2001/XMLSchema#string";

/// Strings with a language tag (RDF 1.1 Concepts, section 3.3).
pub const RDF_LANG_STRING: &str = "http://www.w3.org/1999/02/22-rdf-syntax-ns#langString";

/// Truth values (XML Schema 1.1 Datatypes, section 3.3.2).
pub const XSD_BOOLEAN: &str = "http://www.w3.org/2001/XMLSchema#boolean";

/// Decimals (XML Schema 1.1 Datatypes, section 3.3.3).
pub const XSD_DECIMAL: &str = "http://www.w3.org/2001/XMLSchema#decimal";

/// Integers (XML Schema 1.1 Datatypes, section 3.4.13).
pub const XSD_INTEGER: &str = "http://www.w3.org/2001/XMLSchema#integer";
