use sheet::call::Call;

// What is asked of a sheet in a run. No option of a call: a closing is asked for too.
#[derive(Clone, Copy)]
pub enum Entry {
    Call(Call),
    Close,
}
