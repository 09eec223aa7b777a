use flit_model::Reply;

/// Is told of each call of a worker, before it is begun and after it has its reply.
pub trait Gate {
    fn before(&self, worker: u32, number: u32);

    fn after(&self, worker: u32, number: u32, reply: Reply);
}

/// Does nothing.
#[derive(Clone, Copy, Debug)]
pub struct NoGate;

impl Gate for NoGate {
    fn before(&self, _worker: u32, _number: u32) {}

    fn after(&self, _worker: u32, _number: u32, _reply: Reply) {}
}
