//! A page for a browser that shows jobs, with no other file.

use crate::page_script::script;
use crate::page_style::STYLE;
use std::alloc::{AllocError, Global};
use string_builder::StringBuilder;

/// The page up to its style. It may fetch nothing and send nothing, and run no script but its own: the hash is the
/// SHA-256 of what is between the tags of the script, an LF and the parts of [`script`].
const HEAD: &str = r#"<!DOCTYPE html>
<html lang="en">
<head>
<meta charset="utf-8">
<meta http-equiv="Content-Security-Policy"
 content="default-src 'none'; base-uri 'none'; form-action 'none'; style-src 'unsafe-inline';
 script-src 'sha256-Mx+/za6sqgiLKV0o/q8SsvF5SFzsa8YcKRPqrtc9Z+E='">
<meta name="viewport" content="width=device-width, initial-scale=1">
<title>vjobs-why</title>
<style>
"#;

/// The page between its style and the objects of its jobs.
const BODY: &str = r#"</style>
</head>
<body>
<noscript>This page draws by a script, which is in it. The same is printed by vjobs-why without --html.</noscript>
<main id="jobs"></main>
<script type="application/json" id="data">[
"#;

/// The page between the objects of its jobs and its script.
const BEFORE_SCRIPT: &str = "\n]</script>\n<script>\n";

/// The end of the page.
const END: &str = "</script>\n</body>\n</html>\n";

/// The page up to the objects of its jobs, in parts that follow one another.
fn front() -> &'static [&'static str] {
    &[HEAD, STYLE, BODY]
}

/// Adds the parts of a text, one after another.
fn push_parts(page: &mut StringBuilder<Global>, parts: &[&str]) {
    for part in parts {
        page.push_str(part);
    }
}

/// Adds the objects of the jobs, one on each line.
fn push_objects(page: &mut StringBuilder<Global>, objects: &[String]) {
    for (place, object) in objects.iter().enumerate() {
        if place > 0 {
            page.push_str(",\n");
        }
        page.push_str(object.as_str());
    }
}

/// The page that shows the jobs of these objects, each of which is JSON text without `<`.
///
/// # Errors
///
/// [`AllocError`] if memory was refused.
pub fn page_of(alloc: Global, objects: &[String]) -> Result<String, AllocError> {
    let mut page = StringBuilder::new(alloc);
    push_parts(&mut page, front());
    push_objects(&mut page, objects);
    page.push_str(BEFORE_SCRIPT);
    push_parts(&mut page, script());
    page.push_str(END);
    page.finish()
}
