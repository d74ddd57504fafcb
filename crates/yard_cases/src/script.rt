//! The lines of a script.

/// A line of a script, by what it begins with.
#[derive(Clone, Copy)]
pub enum Entry<'a> {
    /// Nothing at all.
    Blank,
    /// `//`: a remark, for the reader alone.
    Remark,
    /// `## `: a heading, which ends a case.
    Heading(&'a str),
    /// `# `: what the case shows that begins here.
    Case(&'a str),
    /// `> `: the answer to the line of the text that stands before it, without its line feed.
    Expected(&'a str),
    /// Anything else: a line of the text, with escapes.
    Text(&'a str),
}

impl Entry<'_> {
    pub fn read(line: &str) -> Entry<'_> {
        if line.is_empty() {
            return Entry::Blank;
        }
        if line.starts_with("//") {
            return Entry::Remark;
        }
        if let Some(heading) = line.strip_prefix("## ") {
            return Entry::Heading(heading);
        }
        if let Some(title) = line.strip_prefix("# ") {
            return Entry::Case(title);
        }
        if let Some(answer) = line.strip_prefix("> ") {
            return Entry::Expected(answer);
        }
        Entry::Text(line)
    }
}
