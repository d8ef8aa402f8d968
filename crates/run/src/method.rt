/// How a run's boxes are narrowed, and which of their variables is split.
#[derive(Clone, Debug, Drop)]
pub struct Method<C, R> {
    pub contractor: C,
    pub rule: R,
}
