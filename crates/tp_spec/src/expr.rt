use sqlite_items::Boxed;

/// A numeric expression over fluents: a right side of an effect, or a side of a comparison. Its
/// value is exact.
///
/// PDDL 2.1, section 3 (numeric expressions), without products and quotients.
#[derive(Drop)]
pub enum Expr {
    Number(i64),
    Fluent(u32),
    Sum(Boxed<Expr>, Boxed<Expr>),
    Difference(Boxed<Expr>, Boxed<Expr>),
}
