mod agreement;
mod examples;
mod hostile;
mod opening;
mod rig;
